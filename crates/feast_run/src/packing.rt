//! The stages of a code file.
ghost use Rattle.std.specs.Prelude.{◌≡◌, ◌≤◌, IfOk, length};
ghost use Rattle.element_set.specs.Sets.{set_value};
ghost use Rattle.feast_run.specs.Answer.{shows};
ghost use Rattle.call_form.specs.Forms.{pack, texts};
ghost use Rattle.feast_run.specs.Outputs.{IsWritable, output_text};
ghost use Rattle.feast_run.specs.Packed.{pack_text};
ghost use Rattle.feast_run.specs.Replies.{TellsForm};
ghost use Rattle.feast_run.specs.Tellings.{Moves, Tells};
ghost use Rattle.call_form.specs.declared.form.TheConstants.{MOST_FILES};

use crate::element_files::load_set;
use crate::halt::Halt;
use crate::output::Output;
use code_file::write;
use element_set::ElementSet;
use feast_base::Shelf;
use std::alloc::Global;

/// The code file of a set's elements.
fn pack_output<'a>(alloc: Global, set: &ElementSet) -> Result<Output, Halt<'a>>
    ensures tells { Tells output_text (shows pack_text (set_value set.now)) result }
    ensures writable { IfOk result IsWritable }
{
    let mut text = Vec::new(alloc);
    write(set.names(), set.codes(), &mut text)?;
    Ok(Output::Text(text))
}

/// The stages of a code file, up to its bytes.
pub fn pack_stages<'a, F: Shelf>(
    alloc: Global,
    shelf: &mut F,
    words: &'a [String],
) -> Result<Output, Halt<'a>>
    requires { length words.now ≤ MOST_FILES }
    ensures files { (F.state shelf.new).files ≡ (F.state shelf.old).files }
    ensures moves { Moves (F.state shelf.old) (F.state shelf.new) result }
    ensures tells { TellsForm (F.state shelf.old) (pack (texts words.now)) result }
    ensures writable { IfOk result IsWritable }
{
    let set = load_set(alloc, shelf, words)?;
    pack_output(alloc, &set)
}
