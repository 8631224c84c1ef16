//! What the grammar of scripts keeps.
ghost use Rattle.std.specs.Prelude.{◌≡◌, ℕ, List};
ghost use Rattle.f2_script.specs.declared.script.Line.{Line};
ghost use Rattle.f2_script.specs.declared.script.Grammar.{Grammar};
ghost use Rattle.f2_script.specs.Grammar.{IsLine, Spells, IsFirstFault, script_text};

/// A text is one line at most, and bytes are one script at most.
pub fn one_reading()
    ensures line { (text : List ℕ) (a b : Line) → IsLine text a → IsLine text b → a ≡ b }
    ensures script { (grammar : Grammar) (bytes : List ℕ) (a b : List Line) → Spells grammar bytes a → Spells grammar bytes b → a ≡ b }
{}

/// Bytes are a script or have a first line that is none, and not both; and that line is one.
pub fn one_fault()
    ensures none { (grammar : Grammar) (bytes : List ℕ) (lines : List Line) (n : ℕ) → Spells grammar bytes lines → ¬ (IsFirstFault grammar bytes n) }
    ensures one { (grammar : Grammar) (bytes : List ℕ) (m n : ℕ) → IsFirstFault grammar bytes m → IsFirstFault grammar bytes n → m ≡ n }
{}

/// The texts of a script's lines, with a byte 10 after each, are these lines again.
pub fn reads_back()
    ensures { (grammar : Grammar) (bytes : List ℕ) (lines : List Line) → Spells grammar bytes lines → Spells grammar (script_text lines) lines }
{}
