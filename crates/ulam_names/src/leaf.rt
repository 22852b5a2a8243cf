//! Statements that hold no other statement, and boxes for statements.
ghost use Rattle.std.specs.Prelude.{◌≡◌, ◌≤◌, ◌+◌, length, IfOk, IfErr, IsTrue};
ghost use Rattle.std.specs.Box.{box_value};
ghost use Rattle.ulam_names.specs.BodyWalk as walk;
ghost use Rattle.ulam_names.specs.Shown.{is_leaf};
ghost use Rattle.ulam_names.specs.Outcomes.{Resolves, After};
ghost use Rattle.ulam_names.specs.declared.fault.NameFault.TheVariants.{NoMemory};
ghost use Rattle.feast_base.specs.declared.limits.TheConstants.{MOST_PARAMS};
ghost use Rattle.ulam_names.specs.declared.limits.TheConstants.{MOST_LOCALS};
ghost use Rattle.ulam_tree.specs.RawViews.{statement_of};
ghost use Rattle.ulam_tree.specs.ResolvedViews.{resolved_statement};

use crate::fault::NameFault;
use crate::parts::{declare, simple};
use crate::scope::{Context, Entry};
use std::alloc::Global;
use ulam_tree as raw;
use ulam_tree::resolved::Statement;

/// A statement put into a box.
pub fn in_box(alloc: Global, statement: Statement) -> Result<Box<Statement>, NameFault>
    ensures boxed { IfOk result (λ b. box_value b ≡ statement) }
    ensures memory { IfErr result (λ e. e ≡ NoMemory) }
{
    Ok(Box::new(alloc, statement)?)
}

/// A statement that holds no other one.
pub fn leaf<'a>(
    alloc: Global,
    context: &Context<'_, 'a>,
    entries: &mut Vec<Entry<'a>>,
    from: usize,
    slot: u32,
    raw: &'a raw::Statement,
) -> Result<(Statement, u32), NameFault>
    requires params { context.now.params ≤ MOST_PARAMS }
    requires slot { slot ≤ context.now.params + MOST_LOCALS }
    requires from { from ≤ length entries.old.items }
    requires leaf { IsTrue (is_leaf (statement_of raw.now)) }
    ensures { Resolves resolved_statement result (walk.statement_end context.now entries.old from slot raw.now) (λ x. After entries.old entries.new (walk.after context.now entries.old from slot raw.now x)) }
{
    match raw {
        raw::Statement::Declare { of, word, value } => {
            let found = declare(alloc, context, entries, from, slot, of, word, value)?;
            Ok((found, slot + 1))
        }
        _ => {
            let found = simple(alloc, context, entries.as_slice(), raw)?;
            Ok((found, slot))
        }
    }
}
