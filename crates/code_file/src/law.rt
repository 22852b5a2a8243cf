//! What is true of code files and of the events of their codes.
ghost use Rattle.std.specs.Prelude.{◌≡◌, ℕ, List, Ok, IsTrue, length};
ghost use Rattle.stack_code.specs.Valid.{valid};
ghost use Rattle.code_file.specs.Acting.{after};
ghost use Rattle.code_file.specs.Form.{CodesValue, ElementValue, IsElement, IsFile, IsSayable, codes_of, file_bytes};
ghost use Rattle.code_file.specs.Judging.{Reads};
ghost use Rattle.cell_grid.specs.Known.{BringsNone};
ghost use Rattle.code_file.specs.Ranged.{IsNamed};
ghost use Rattle.code_file.specs.Right.{AreRight};

/// The laws of code files, as a contract; the call does nothing. Bytes spell at most one code file.
/// A file that is read has elements with valid code and different names, and the file that `write`
/// makes of such elements reads back as them. An element with valid code has its numbers in range, if
/// its names are well formed, its bases and parameters are few enough and its types are those of the
/// file. Events of the codes of a file bring no atom of an unnamed type into a window.
pub fn file_laws()
    ensures one { (bytes : List ℕ) (a b : CodesValue) → IsFile bytes a → IsFile bytes b → a ≡ b }
    ensures right { (bytes : List ℕ) (es : CodesValue) → Reads bytes (Ok es) → IsFile bytes es × AreRight es }
    ensures again { (es : CodesValue) → IsSayable es → AreRight es → Reads (file_bytes es) (Ok es) }
    ensures ranges { (most kind : ℕ) (e : ElementValue) → IsNamed most kind e → IsTrue (valid e.code) → IsElement most kind e }
    ensures known { (es : CodesValue) → IsSayable es → BringsNone (length es) (after (codes_of es)) }
{}
