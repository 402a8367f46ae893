//! What lines are and what they ask for.

ghost use Rattle.std.specs.Prelude.{◌≡◌, ℕ, List};
ghost use Rattle.sign_script.specs.Asks.{ask_of, bare};
ghost use Rattle.sign_script.specs.Questions.{IsAsked, bare_question, question_of};
ghost use Rattle.sign_script.specs.Spelling.{IsSpelled};
ghost use Rattle.sign_script.specs.declared.ask.Ask.{Ask};
ghost use Rattle.sign_script.specs.declared.question.Question.{Question};

/// A line asks for just what it spells.
pub fn lines_are_spelled()
    ensures found { (line : List ℕ) (ask : Ask) → ask_of line ≡ Some ask → IsSpelled ask line }
    ensures only { (line : List ℕ) (ask : Ask) → IsSpelled ask line → ask_of line ≡ Some (bare ask) }
{}

/// A line asks just what it spells of a served sign.
pub fn questions_are_spelled()
    ensures found { (line : List ℕ) (question : Question) → question_of line ≡ Some question → IsAsked question line }
    ensures only { (line : List ℕ) (question : Question) → IsAsked question line → question_of line ≡ Some (bare_question question) }
{}
