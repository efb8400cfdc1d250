ghost use Rattle.std.specs.Prelude.{◌≡◌, ◌≢◌, ℕ, List, Ok, Result};
ghost use Rattle.host_model.specs.Files.{Contents};
ghost use Rattle.gds_words.specs.declared.words.Command.{Command};
ghost use Rattle.gds_words.specs.declared.words.Command.TheVariants.{Run};
ghost use Rattle.gds_words.specs.declared.words.BadWords.{BadWords};
ghost use Rattle.gds_recovery.specs.Found.{SameFiles};
ghost use Rattle.gds_cli.specs.Answer.{Reply, Due};

/// A law, with nothing to do: for what the words ask and what a host holds no two replies are due, nor are the files to
/// hold one thing or another, and it can't be that no reply is due. Of RUN it says nothing: a line may be answered
/// `TOODEEP` or not.
pub fn one_reply()
    ensures one { (command : Result Command BadWords) (input : List ℕ) (c d e : Contents) (r s : Reply)
        → command ≢ Ok Run → Due command input c r d → Due command input c s e → (r ≡ s) × SameFiles d e }
    ensures some { (command : Result Command BadWords) (input : List ℕ) (c : Contents)
        → command ≢ Ok Run → ((reply : Reply) (after : Contents) → Due command input c reply after → ⊥) → ⊥ }
{}
