//! Laws of the definitions, each the contract of a call that does nothing.
ghost use Rattle.std.specs.Prelude.{◌≡◌, ◌≤◌, ◌∷◌, List, length, Option, Result, Ok, ℕ, ℤ, pos, ◌≤ℤ◌, ◌*ℤ◌, unsigned_abs};
ghost use Rattle.std.specs.Int.{IsGcd};
ghost use Rattle.qasm_lex.specs.Fractions.{Ratio, lowest};
ghost use Rattle.qasm_lex.specs.Angles.{IsAnswer};
ghost use Rattle.qasm_lex.specs.Quarters.{IsQuarters, IsEighths};
ghost use Rattle.qasm_lex.specs.declared.symbol.Symbol.{Symbol};
ghost use Rattle.qasm_lex.specs.declared.refusal.AngleRefusal.{AngleRefusal};
ghost use Rattle.qasm_lex.specs.Lexemes.{AreLexemes, AreTokens, Begins, Lexeme, lexemes_of};
ghost use Rattle.qasm_lex.specs.Expressions.{Tree, Formed, spelling};
ghost use Rattle.qasm_lex.specs.declared.token.Token.{Token};
ghost use Rattle.qasm_lex.specs.declared.pieces.Form.{Form};
ghost use Rattle.qasm_lex.specs.declared.pieces.Form.TheVariants.{Comment};

/// Each text can be cut into tokens up to a bad place or its end.
pub fn every_text_has_tokens()
    ensures { (text : List ℕ) → (list : List Token) × (bad : Option ℕ) × AreTokens text list bad }
{}

/// A text has one list of tokens and one bad place.
pub fn tokens_are_unique()
    ensures { (text : List ℕ) (list more : List Token) (bad worse : Option ℕ) → AreTokens text list bad → AreTokens text more worse → (list ≡ more) × (bad ≡ worse) }
{}

/// A text is cut into the lexemes of its tokens, and into no others.
pub fn tokens_are_the_lexemes()
    ensures are { (text : List ℕ) (list : List Token) (bad : Option ℕ) → AreTokens text list bad → AreLexemes text (lexemes_of text list) bad }
    ensures only { (text : List ℕ) (list more : List Lexeme) (bad worse : Option ℕ) → AreLexemes text list bad → AreLexemes text more worse → (list ≡ more) × (bad ≡ worse) }
{}

/// A text has at most as many tokens as bytes.
pub fn tokens_are_at_most_the_bytes()
    ensures { (text : List ℕ) (list : List Token) (bad : Option ℕ) → AreTokens text list bad → length list ≤ length text }
{}

/// Where a piece of a text could begin, two slashes begin a comment.
pub fn slashes_begin_a_comment()
    ensures { (more : List ℕ) (form : Form) (n : ℕ) → Begins (47 ∷ 47 ∷ more) form n → form ≡ Comment }
{}

/// Symbols are those of at most one expression.
pub fn expressions_are_unambiguous()
    ensures { (s t : Tree) → Formed s → Formed t → spelling s ≡ spelling t → s ≡ t }
{}

/// A fraction and its lowest terms have the same value. The lowest terms have a positive denominator and no common
/// divisor but 1.
pub fn lowest_terms()
    ensures value { (n d : ℤ) → pos 1 ≤ℤ d → (lowest n d).num *ℤ d ≡ n *ℤ (lowest n d).den }
    ensures positive { (n d : ℤ) → pos 1 ≤ℤ d → pos 1 ≤ℤ (lowest n d).den }
    ensures lowest { (n d : ℤ) → pos 1 ≤ℤ d → IsGcd (unsigned_abs (lowest n d).num) (unsigned_abs (lowest n d).den) 1 }
{}

/// Fractions of one value have the same lowest terms.
pub fn lowest_terms_are_unique()
    ensures { (n d m e : ℤ) → pos 1 ≤ℤ d → pos 1 ≤ℤ e → n *ℤ e ≡ m *ℤ d → lowest n d ≡ lowest m e }
{}

/// Symbols of an angle have an answer.
pub fn every_angle_has_an_answer()
    ensures { (symbols : List Symbol) → (answer : Result Ratio AngleRefusal) × IsAnswer symbols answer }
{}

/// Symbols have one answer.
pub fn angles_have_one_answer()
    ensures { (symbols : List Symbol) (a b : Result Ratio AngleRefusal) → IsAnswer symbols a → IsAnswer symbols b → a ≡ b }
{}

/// A fraction that is answered has a positive denominator.
pub fn angles_have_positive_denominators()
    ensures { (symbols : List Symbol) (f : Ratio) → IsAnswer symbols (Ok f) → pos 1 ≤ℤ f.den }
{}

/// A fraction is at most one number of quarter turns below two full turns.
pub fn quarters_are_unique()
    ensures { (f : Ratio) (m k : ℕ) → pos 1 ≤ℤ f.den → IsQuarters f m → IsQuarters f k → m ≡ k }
{}

/// A fraction is at most one number of eighths of a turn below a full turn.
pub fn eighths_are_unique()
    ensures { (f : Ratio) (m k : ℕ) → pos 1 ≤ℤ f.den → IsEighths f m → IsEighths f k → m ≡ k }
{}
