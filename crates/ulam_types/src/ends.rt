//! Whether the end of a body can be reached.
ghost use Rattle.std.specs.Prelude.{◌≡◌};
ghost use Rattle.ulam_tree.specs.Completes as spec;
ghost use Rattle.ulam_tree.specs.ResolvedViews.{resolved_statement, resolved_body, resolved_part};

use ulam_tree::resolved::Statement;

/// Whether what follows a statement can be reached through it.
#[cycle(completes)]
fn completes(raw: &Statement) -> bool
    ensures { result ≡ spec.completes (resolved_statement raw.now) }
{
    match raw {
        Statement::Block { body } => all_complete(body.as_slice()),
        Statement::If { yes, no, .. } => completes(yes) || part_completes(no),
        Statement::Return { .. } => false,
        Statement::Break { .. } => false,
        Statement::Continue { .. } => false,
        _ => true,
    }
}

/// Whether the end of an optional statement can be reached. One that is not there does nothing.
#[cycle(completes)]
fn part_completes(raw: &Option<Box<Statement>>) -> bool
    ensures { result ≡ spec.part_completes (resolved_part raw.now) }
{
    match raw {
        None => true,
        Some(one) => completes(one),
    }
}

/// Whether the end of a list of statements can be reached.
#[cycle(completes)]
pub fn all_complete(raw: &[Statement]) -> bool
    ensures { result ≡ spec.all_complete (resolved_body raw.now) }
{
    for one in raw {
        if !completes(one) {
            return false;
        }
    }
    true
}
