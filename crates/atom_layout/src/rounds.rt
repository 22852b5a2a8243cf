//! The bits of classes, computed in rounds over all of them.
ghost use Rattle.std.specs.Prelude.{◌≡◌, ◌≢◌, map, length, IfOk, IfErr, None, Some};
ghost use Rattle.ulam_tree.specs.ResolvedViews.{resolved_class, resolved_program};
ghost use Rattle.atom_layout.specs.Layouts.{member_bits, widths, capped_bits, layout_of, first_wide};
ghost use Rattle.atom_layout.specs.declared.fault.LayoutFault.TheVariants.{NoMemory};
ghost use Rattle.atom_layout.specs.Rows.{in_row, class_row, row_after, narrow};
ghost use Rattle.atom_layout.specs.Layouts as spec;

use crate::fault::LayoutFault;
use crate::table::Layout;
use bit_field::STATE_BITS;
use std::alloc::Global;
use ulam_tree::resolved::{Class, Member, Program, Ty};

/// The bits of a type, if classes have those of a row.
fn type_bits(row: &[u64], ty: Ty) -> u64
    ensures { result ≡ spec.type_bits (in_row row.now) ty }
{
    match ty {
        Ty::Num { num } => u64::from(num.width),
        Ty::Class { class } => match row.get(class as usize) {
            Some(bits) => *bits,
            None => 0,
        },
        _ => 0,
    }
}

/// The bits of a data member.
fn field_bits(row: &[u64], ty: Ty, length: u32) -> u64
    ensures { result ≡ capped_bits (member_bits (in_row row.now) ty length) }
{
    let bits = type_bits(row, ty);
    if length == 0 {
        bits
    } else {
        bits.saturating_mul(u64::from(length))
    }
}

/// The bits of a class.
fn class_bits(row: &[u64], class: &Class) -> u64
    ensures { result ≡ class_row row.now (resolved_class class.now) }
{
    let mut sum: u64 = 0;
    for member in &class.members {
        if let Member::Field { of, length, .. } = member {
            sum = sum.saturating_add(field_bits(row, of.ty, *length));
        }
    }
    sum
}

/// The bits of all classes, given those of the round before.
fn next_row(alloc: Global, classes: &[Class], row: &[u64]) -> Result<Vec<u64>, LayoutFault>
    ensures row { IfOk result (λ r. r.items ≡ map (class_row row.now) (map resolved_class classes.now)) }
    ensures memory { IfErr result (λ e. e ≡ NoMemory) }
{
    let mut next = Vec::new(alloc);
    for class in classes {
        next.push(class_bits(row, class))?;
    }
    Ok(next)
}

/// A row of zeros.
fn first_row(alloc: Global, classes: &[Class]) -> Result<Vec<u64>, LayoutFault>
    ensures row { IfOk result (λ r. r.items ≡ map (λ c. 0) (map resolved_class classes.now)) }
    ensures memory { IfErr result (λ e. e ≡ NoMemory) }
{
    let mut row = Vec::new(alloc);
    for _ in classes {
        row.push(0)?;
    }
    Ok(row)
}

/// The bits of all classes, after as many rounds as there are classes.
fn whole_row(alloc: Global, classes: &[Class]) -> Result<Vec<u64>, LayoutFault>
    ensures row { IfOk result (λ r. r.items ≡ row_after (length classes.now) (map resolved_class classes.now)) }
    ensures memory { IfErr result (λ e. e ≡ NoMemory) }
{
    let mut row = first_row(alloc, classes)?;
    for _ in 0..classes.len() {
        row = next_row(alloc, classes, row.as_slice())?;
    }
    Ok(row)
}

/// Refuses a class that is too wide.
fn too_wide(row: &[u64], class: &Class) -> Option<LayoutFault>
    ensures { result ≡ spec.fault_by (class_row row.now (resolved_class class.now)) (resolved_class class.now) }
{
    let bits = class_bits(row, class);
    let place = class.word.place;
    if class.quark {
        if bits > 32 {
            return Some(LayoutFault::QuarkTooWide(place, bits));
        }
    } else if bits > u64::from(STATE_BITS) {
        return Some(LayoutFault::ElementTooWide(place, bits));
    }
    None
}

/// The bits of the data members of a class, each at most as many as a state has.
fn class_widths(alloc: Global, row: &[u64], class: &Class) -> Result<Vec<u32>, LayoutFault>
    ensures row { IfOk result (λ r. r.items ≡ map narrow (widths (in_row row.now) (resolved_class class.now).members)) }
    ensures memory { IfErr result (λ e. e ≡ NoMemory) }
{
    let mut bits = Vec::new(alloc);
    for member in &class.members {
        if let Member::Field { of, length, .. } = member {
            let width = field_bits(row, of.ty, *length).min(u64::from(STATE_BITS));
            bits.push(width as u32)?;
        }
    }
    Ok(bits)
}

/// The layout of all classes. `QuarkTooWide` or `ElementTooWide` if a quark takes more than 32
/// bits or an element more than 71, at the first such class; `NoMemory` if it can't be kept.
pub fn layout(alloc: Global, program: &Program) -> Result<Layout, LayoutFault>
    ensures layout { IfOk result (λ l. l ≡ layout_of (resolved_program program.now)) }
    ensures narrow { IfOk result (λ l. first_wide (resolved_program program.now) ≡ None) }
    ensures wide { IfErr result (λ e. e ≢ NoMemory → first_wide (resolved_program program.now) ≡ Some e) }
{
    let row = whole_row(alloc, program.classes.as_slice())?;
    let mut classes = Vec::new(alloc);
    for class in &program.classes {
        match too_wide(row.as_slice(), class) {
            Some(fault) => return Err(fault),
            None => {}
        }
        classes.push(class_widths(alloc, row.as_slice(), class)?)?;
    }
    Ok(Layout::of(classes))
}
