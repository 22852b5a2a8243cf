//! What holds of compiled elements as a code file, and of calls with a packed code file.
ghost use Rattle.std.specs.Prelude.{◌≡◌, ◌∷◌, [], ℕ, List};
ghost use Rattle.feast_base.specs.Outside.{File};
ghost use Rattle.code_gen.specs.Compiling.{element_codes};
ghost use Rattle.element_set.specs.Sets.{AcceptsFiles, SetValue, element_names, program_of};
ghost use Rattle.code_file.specs.Form.{IsSayable, codes_of, names_of};
ghost use Rattle.code_file.specs.Right.{AreRight};
ghost use Rattle.call_form.specs.Forms.{runpack, steppack};
ghost use Rattle.feast_run.specs.Told.{Shows};
ghost use Rattle.pack_laws.specs.Example.{empty_word, example_files, packed_word, world_word};
ghost use Rattle.pack_laws.specs.Packed.{ActsAs, ReadsAsOnly, ReadsBack, codes_of_set};
ghost use Rattle.pack_laws.specs.PackedFile.{AnswerAlike, IsPacked, PackedCall, ShowAlike, WriteOneText, packed_run, packed_step, plain_run, plain_step};

/// A set has a code for each of its elements. If no stage refuses the files, a code file can say
/// the elements of their set with these codes; each has its own name and valid code; the file that
/// is written from them is read as them, and its reading has no other outcome; and on each window
/// and seed the codes leave the window that the elements mean. The call does nothing: its contract
/// is the laws.
pub fn packed_laws()
    ensures sayable { (files : List File) (set : SetValue) → AcceptsFiles files set → IsSayable (codes_of_set set) }
    ensures right { (files : List File) (set : SetValue) → AcceptsFiles files set → AreRight (codes_of_set set) }
    ensures names { (set : SetValue) → names_of (codes_of_set set) ≡ element_names set }
    ensures codes { (set : SetValue) → codes_of (codes_of_set set) ≡ element_codes (program_of set) }
    ensures again { (files : List File) (set : SetValue) → AcceptsFiles files set → ReadsBack (codes_of_set set) }
    ensures only { (files : List File) (set : SetValue) → AcceptsFiles files set → ReadsAsOnly (codes_of_set set) }
    ensures same { (files : List File) (set : SetValue) → AcceptsFiles files set → ActsAs (codes_of_set set) set }
{}

/// If a file holds what `pack` writes for some element files, and is no longer than a code file may
/// be, `steppack` with it writes what `step` writes with these files. Moreover, the stages of both
/// come to the same text or refusal, except for loads that fail, and the same is known of a text;
/// likewise for `runpack` and `run`. An example meets the conditions: an empty element file, its
/// code file, and a world that `steppack` and `runpack` run with it. The call does nothing: its
/// contract is the laws.
pub fn packed_calls()
    ensures written { (c : PackedCall) → WriteOneText c.files (packed_step c) (plain_step c) }
    ensures step { (c : PackedCall) → AnswerAlike c.files (packed_step c) (plain_step c) }
    ensures run { (c : PackedCall) → AnswerAlike c.files (packed_run c) (plain_run c) }
    ensures stepped { (c : PackedCall) → ShowAlike c.files (packed_step c) (plain_step c) }
    ensures ran { (c : PackedCall) → ShowAlike c.files (packed_run c) (plain_run c) }
    ensures example { IsPacked example_files (empty_word ∷ []) packed_word }
    ensures example_ran { (text : List ℕ) × Shows example_files (runpack world_word packed_word) text }
    ensures example_stepped { (text : List ℕ) × Shows example_files (steppack world_word packed_word) text }
{}
