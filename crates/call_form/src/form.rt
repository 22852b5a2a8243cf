//! The forms that the words of a call may have.
ghost use Rattle.std.specs.Prelude.{ℕ, ◌≡◌, ◌≤◌, IfSome, List, MatchOption, None, Some, length, option_map};
ghost use Rattle.call_form.specs.Forms.{FormValue, IsFew, form_of_words, form_value, later_form, left_of, of_files, of_journal, of_number, of_rewind, of_world, texts, two_words, world_form};
ghost use Rattle.call_form.specs.declared.form.TheConstants.{MOST_FILES};

use feast_base::MOST_ATTEMPTS;
use text_lines::number;

/// The most element files that a form may name.
pub const MOST_FILES: usize = 64;

/// The most events that a rewind may leave.
const MOST_LEFT: u128 = MOST_ATTEMPTS as u128;

/// What the words of a call ask for.
#[derive(Clone, Copy)]
pub enum Form<'a> {
    /// A check of some element files.
    Check(&'a [String]),
    /// The codes of the elements of some files.
    Code(&'a [String]),
    /// The code file of the elements of some files.
    Pack(&'a [String]),
    /// A run of the world in one file with the elements in others.
    Run(&'a str, &'a [String]),
    /// A stepped run of the world in one file with the elements in others.
    Step(&'a str, &'a [String]),
    /// The atoms that the journal in the second file gives from the start of the world in the
    /// first, with the elements in the others.
    Replay(&'a str, &'a str, &'a [String]),
    /// The summary of the run of the world that a number gives.
    Gen(u64),
    /// The judgement on the report in the second file, of the world in the first, with the elements
    /// in the others.
    Audit(&'a str, &'a str, &'a [String]),
    /// The atoms that the first events of the report in the second file make of the world in the
    /// first, with the elements in the others; the number is how many events.
    Rewind(&'a str, &'a str, u32, &'a [String]),
    /// A stepped run of the world in one file with the elements of the code file in another.
    StepPack(&'a str, &'a str),
    /// A run of the world in one file with the elements of the code file in another.
    RunPack(&'a str, &'a str),
}

/// The words, if there are as many as a form may have element files.
fn of_files(words: &[String]) -> Option<&[String]>
    ensures value { of_files (texts words.now) ≡ option_map (λ files. texts files.now) result }
    ensures few { IfSome result (λ f. length f.now ≤ MOST_FILES) }
{
    if 1 <= words.len() && words.len() <= MOST_FILES {
        Some(words)
    } else {
        None
    }
}

/// The number that the words are, if they are one word and it is a canonical decimal below 2^64.
fn of_number(words: &[String]) -> Option<u64>
    ensures { MatchOption result (of_number (texts words.now) ≡ None) (λ n. of_number (texts words.now) ≡ Some n) }
{
    match words {
        [word] => u64::try_from(number(word.as_bytes())?).ok(),
        _ => None,
    }
}

/// How many events remain, as a word says: a canonical decimal, at most 1,000,000.
fn left_of(word: &str) -> Option<u32>
    ensures { result ≡ left_of word.now }
{
    let n = number(word.as_bytes())?;
    if n <= MOST_LEFT { Some(n as u32) } else { None }
}

/// The words, if they are two.
fn two_words(words: &[String]) -> Option<(&str, &str)>
    ensures { two_words (texts words.now) ≡ option_map (λ pair. (pair.0.now, pair.1.now)) result }
{
    match words {
        [first, second] => Some((first.as_str(), second.as_str())),
        _ => None,
    }
}

/// A word, and the words of element files after it.
fn world_words(words: &[String]) -> Option<(&str, &[String])>
    ensures value { (make : List ℕ → List (List ℕ) → FormValue) →
        of_world make (texts words.now) ≡ option_map (λ p. make p.0.now (texts p.1.now)) result }
    ensures few { IfSome result (λ p. length p.1.now ≤ MOST_FILES) }
{
    let (world, rest) = words.split_first()?;
    Some((world.as_str(), of_files(rest)?))
}

/// Two words, and the words of element files after them.
fn report_words(words: &[String]) -> Option<(&str, &str, &[String])>
    ensures value { (make : List ℕ → List ℕ → List (List ℕ) → FormValue) →
        of_journal make (texts words.now) ≡ option_map (λ p. make p.0.now p.1.now (texts p.2.now)) result }
    ensures few { IfSome result (λ p. length p.2.now ≤ MOST_FILES) }
{
    let (world, rest) = words.split_first()?;
    let (report, files) = world_words(rest)?;
    Some((world.as_str(), report, files))
}

/// The form of a rewind, from the words after its first.
fn read_rewind(words: &[String]) -> Option<Form<'_>>
    ensures value { of_rewind (texts words.now) ≡ option_map form_value result }
    ensures few { IfSome result IsFew }
{
    let (world, rest) = words.split_first()?;
    let (report, rest) = rest.split_first()?;
    let (count, rest) = rest.split_first()?;
    let left = left_of(count.as_str())?;
    Some(Form::Rewind(world.as_str(), report.as_str(), left, of_files(rest)?))
}

/// The form of words after a first word that is none of those up to `replay`.
fn read_later_form<'a>(verb: &str, rest: &'a [String]) -> Option<Form<'a>>
    ensures value { later_form verb.now (texts rest.now) ≡ option_map form_value result }
    ensures few { IfSome result IsFew }
{
    match verb {
        "gen" => Some(Form::Gen(of_number(rest)?)),
        "audit" => {
            let (world, report, files) = report_words(rest)?;
            Some(Form::Audit(world, report, files))
        }
        "rewind" => read_rewind(rest),
        "steppack" => {
            let (world, code) = two_words(rest)?;
            Some(Form::StepPack(world, code))
        }
        "runpack" => {
            let (world, code) = two_words(rest)?;
            Some(Form::RunPack(world, code))
        }
        _ => None,
    }
}

/// The form of words after a first word that is none of `check`, `code` and `pack`.
fn read_world_form<'a>(verb: &str, rest: &'a [String]) -> Option<Form<'a>>
    ensures value { world_form verb.now (texts rest.now) ≡ option_map form_value result }
    ensures few { IfSome result IsFew }
{
    match verb {
        "run" => {
            let (world, files) = world_words(rest)?;
            Some(Form::Run(world, files))
        }
        "step" => {
            let (world, files) = world_words(rest)?;
            Some(Form::Step(world, files))
        }
        "replay" => {
            let (world, journal, files) = report_words(rest)?;
            Some(Form::Replay(world, journal, files))
        }
        _ => read_later_form(verb, rest),
    }
}

/// The form of the words.
pub fn read_form(words: &[String]) -> Option<Form<'_>>
    ensures value { form_of_words words.now ≡ option_map form_value result }
    ensures few { IfSome result IsFew }
{
    let (verb, rest) = words.split_first()?;
    match verb.as_str() {
        "check" => Some(Form::Check(of_files(rest)?)),
        "code" => Some(Form::Code(of_files(rest)?)),
        "pack" => Some(Form::Pack(of_files(rest)?)),
        verb => read_world_form(verb, rest),
    }
}
