// Laws of scripts, for every text.
ghost use Rattle.std.specs.Prelude.{◌≡◌, ◌∷◌, ◌++◌, [], ℕ, List, codes};
ghost use Rattle.gate_base.specs.declared.level.Level.TheVariants as level;
ghost use Rattle.gate_io.specs.declared.event.Side.TheVariants.{Down, Up};
ghost use Rattle.gate_io.specs.declared.event.Sent.TheVariants as sent;
ghost use Rattle.replay_script.specs.declared.command.Command.{Command};
ghost use Rattle.replay_script.specs.declared.command.Command.TheVariants as command;
ghost use Rattle.replay_script.specs.Commands.{text_of};
ghost use Rattle.replay_script.specs.Scripts.{script_text, IsScript, FirstBad};
ghost use Rattle.replay_script.specs.Prints.{printed, printed_by, told};
ghost use Rattle.replay_script.specs.Laws.{PlaysItsScript};
ghost use Rattle.replay_script.specs.Examples.{WorkedScripts};

/// A text is the script of one list of lines at most.
pub fn one_reading()
    ensures { (workers : ℕ) (text : List ℕ) (a b : List Command) → IsScript workers text a → IsScript workers text b → a ≡ b }
{}

/// A text that is a script has no first line of no form, and any other has one at most.
pub fn one_refusal()
    ensures none { (workers : ℕ) (text : List ℕ) (a : List Command) (n : ℕ) → IsScript workers text a → FirstBad workers text n → ⊥ }
    ensures one { (workers : ℕ) (text : List ℕ) (m n : ℕ) → FirstBad workers text m → FirstBad workers text n → m ≡ n }
{}

/// The world of a script gives the script's events in order, up to its Stop, and no others; and what it keeps of what it took,
/// turn by turn, joins to all that it took.
pub fn worlds_play_their_scripts()
    ensures { PlaysItsScript }
{}

/// Worked lines: what a script of each kind of line is, and what is printed, of a log line of each level too.
pub fn worked_lines()
    ensures open { text_of (command.Open 1) ≡ codes "open 1" }
    ensures bytes { text_of (command.Bytes 4294967295 (0 ∷ 171 ∷ 255 ∷ [])) ≡ codes "bytes 4294967295 00abff" }
    ensures end { text_of (command.End 12) ≡ codes "end 12" }
    ensures at { text_of (command.At 18446744073709551615) ≡ codes "at 18446744073709551615" }
    ensures gone { text_of (command.Gone 3) ≡ codes "gone 3" }
    ensures joined { text_of (command.Joined 3) ≡ codes "joined 3" }
    ensures refused { text_of (command.Refused 3) ≡ codes "refused 3" }
    ensures upbytes { text_of (command.UpBytes 3 (10 ∷ [])) ≡ codes "upbytes 3 0a" }
    ensures upend { text_of (command.UpEnd 3) ≡ codes "upend 3" }
    ensures upgone { text_of (command.UpGone 3) ≡ codes "upgone 3" }
    ensures on { text_of (command.On 8) ≡ codes "on 8" }
    ensures clock { text_of command.Clock ≡ codes "clock" }
    ensures script { script_text (command.Open 1 ∷ command.Stop ∷ []) ≡ codes "open 1\nstop\n" }
    ensures empty { script_text [] ≡ [] }
    ensures print { printed (sent.Connect 1 ∷ sent.Bytes 1 Up (71 ∷ []) ∷ sent.Bytes 1 Down (10 ∷ []) ∷ sent.Close 129 Down ∷ sent.Close 2 Up ∷ [])
        ≡ codes "connect 1\nup 1 47\ndown 1 0a\nclose 129\nupclose 2\n" }
    ensures by_worker { printed_by 1 (told 1 (sent.Connect 1) ∷ told 2 (sent.Connect 1) ∷ told 2 (sent.Connect 2) ∷ told 1 (sent.Close 1 Up) ∷ [])
        ≡ codes "connect 1\non 2\nconnect 1\nconnect 2\non 1\nupclose 1\n" }
    ensures log { printed (sent.Log level.Info (104 ∷ 105 ∷ []) ∷ []) ≡ codes "log info 6869\n" }
    ensures trace { printed (sent.Log level.Trace (97 ∷ []) ∷ []) ≡ codes "log trace 61\n" }
    ensures debug { printed (sent.Log level.Debug (97 ∷ []) ∷ []) ≡ codes "log debug 61\n" }
    ensures warn { printed (sent.Log level.Warn (97 ∷ []) ∷ []) ≡ codes "log warn 61\n" }
    ensures error { printed (sent.Log level.Error (97 ∷ []) ∷ []) ≡ codes "log error 61\n" }
    ensures critical { printed (sent.Log level.Critical [] ∷ []) ≡ codes "log critical \n" }
{}

/// Worked scripts: their events, moments that rise and that fall, and what the world of a script keeps.
pub fn worked_scripts()
    ensures { WorkedScripts }
{}
