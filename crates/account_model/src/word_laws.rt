//! Laws of words.
ghost use Rattle.std.specs.Prelude.{◌≡◌, ◌↔◌, ◌⊎◌, ℕ, List, Ok, Some, None};
ghost use Rattle.account_model.specs.declared.word_fault.WordFault.{WordFault};
ghost use Rattle.account_model.specs.declared.words_of.WordsOf.{WordsOf as Whose};
ghost use Rattle.account_model.specs.LineWords.{ReadsLine, line_printed, split_line};
ghost use Rattle.account_model.specs.Request.{Request};
ghost use Rattle.account_model.specs.Words.{Asks, AsksAs, fault, fault_as, request_as, request_of};

/// Every list of words, of a command that is carried out or of a line of a batch, asks for one request,
/// which is read of it, or has one fault (getopt_long(3)).
pub fn words_have_one_reading()
    ensures read { (whose : Whose) (words : List (List ℕ)) (request : Request)
        → AsksAs whose words request ↔ (request_as whose words ≡ Ok request) }
    ensures one { (whose : Whose) (words : List (List ℕ)) (first second : Request)
        → AsksAs whose words first → AsksAs whose words second → first ≡ second }
    ensures faultless { (whose : Whose) (words : List (List ℕ)) (request : Request)
        → AsksAs whose words request → fault_as whose words ≡ None }
    ensures faulty { (whose : Whose) (words : List (List ℕ))
        → ((request : Request) × AsksAs whose words request)
        ⊎ ((first : WordFault) × (fault_as whose words ≡ Some first)) }
{}

/// So it is with the words of a command that is carried out or planned: those behind `plan` tell what is
/// planned.
pub fn commands_have_one_reading()
    ensures read { (words : List (List ℕ)) (request : Request)
        → Asks words request ↔ (request_of words ≡ Ok request) }
    ensures one { (words : List (List ℕ)) (first second : Request)
        → Asks words first → Asks words second → first ≡ second }
    ensures faultless { (words : List (List ℕ)) (request : Request)
        → Asks words request → fault words ≡ None }
    ensures faulty { (words : List (List ℕ))
        → ((request : Request) × Asks words request)
        ⊎ ((first : WordFault) × (fault words ≡ Some first)) }
{}

/// Words are split from a line of a batch exactly where the line reads as these, and words that are
/// printed with quotes read back (sh(1), "Quoting").
pub fn lines_read_back()
    ensures split { (line : List ℕ) (words : List (List ℕ))
        → ReadsLine line words ↔ (split_line line ≡ Ok words) }
    ensures printed { (words : List (List ℕ)) → ReadsLine (line_printed words) words }
{}
