//! A whole run: words in, bytes and a status out.
ghost use Rattle.std.specs.Prelude.{◌≡◌, ℕ, ◌+◌, ◌<◌, ◌≤◌, ◌⊎◌, Bool, true, List, Some, IsTrue, IfSome, map, string_bytes};
ghost use Rattle.spiel_io.specs.Causes.{Rose};
ghost use Rattle.spiel_io.specs.Outside.{Files};
ghost use Rattle.spiel_io.specs.Plan.{AsksNothing, BeginsAtMost, HoldsAsked, side_asks};
ghost use Rattle.spiel_io.specs.declared.outside.Slot.TheVariants.{Side};
ghost use Rattle.spiel_words.specs.Verbs.{command_of};
ghost use Rattle.spiel_words.specs.declared.command.Command.TheVariants.{Judge};
ghost use Rattle.spiel_cli.specs.Case.{Case};
ghost use Rattle.spiel_cli.specs.Judgement.{AreOfCase, HasJudged, Judges};
ghost use Rattle.spiel_cli.specs.Value.{numbers_fit};
ghost use Rattle.spiel_cli.specs.Outcome.{names_in, outcome, plan_of};
ghost use Rattle.spiel_cli.specs.Run.{Completes, Knows, SaysStatus, TakesFront};

use crate::answer::answer;
use crate::writing::write_answer;
use spiel_io::{Shelf, Sink};
use spiel_load::Any;
use std::alloc::Global;

/// Does what the words say: reads from the shelf, writes to `out`, and puts messages to `err`.
///
/// The answer is the exit status: 0 for done, 2 for words that are no command, 3 for a read fault, 4
/// for bad input, 5 for a game that can't be judged or a policy file that isn't one of the game, 6 for
/// numbers that pass 127 bits, 7 for a write fault, and 8 for want of memory. 1 is kept for a
/// difference that is found; no command finds one yet.
pub fn run<F: Shelf, O: Sink, E: Sink>(
    alloc: Global,
    words: &[String],
    shelf: &mut F,
    out: &mut O,
    err: &mut E,
) -> u8
    // For every game that can be judged, every complete policy for it, and `judge` of both: where the
    // numbers fit, no read and no write failed, and memory was found, the report on them was written,
    // and its numbers and responses are what they are called.
    ensures headline { (game policy : List ℕ) (brief : Bool) (files : Files) (case : Case)
        → command_of (map string_bytes words.now) ≡ Some (Judge game policy brief)
        → Knows (F.state shelf.old).files (plan_of (map string_bytes words.now)) files
        → AreOfCase game policy files case → numbers_fit case.judged ≡ true
        → (Rose (F.state shelf.old).faults (F.state shelf.new).faults → ⊥)
        → (Rose (O.state out.old).faults (O.state out.new).faults → ⊥)
        → (result ≡ 8) ⊎ ((result ≡ 0) × Judges brief case (O.state out.old) (O.state out.new) (E.state err.old) (E.state err.new)) }

    // And status 0 after `judge` comes only so, whatever the shelf tells.
    ensures judged { (game policy : List ℕ) (brief : Bool) → command_of (map string_bytes words.now) ≡ Some (Judge game policy brief) → result ≡ 0
        → HasJudged game policy brief (F.state shelf.old).files (O.state out.old) (O.state out.new) (E.state err.old) (E.state err.new) }

    // Where no read and no write failed, the status and all that was written are the outcome of the
    // words and the files, or memory ran out.
    ensures outcome { (files : Files) → Knows (F.state shelf.old).files (plan_of (map string_bytes words.now)) files
        → (Rose (F.state shelf.old).faults (F.state shelf.new).faults → ⊥)
        → (Rose (O.state out.old).faults (O.state out.new).faults → ⊥)
        → (result ≡ 8) ⊎ Completes (outcome (map string_bytes words.now) files) result
        (O.state out.old) (O.state out.new) (E.state err.old) (E.state err.new) }

    // A read fault is answered only where one came, and none is passed over.
    ensures read_only { result ≡ 3 → Rose (F.state shelf.old).faults (F.state shelf.new).faults }
    ensures read_seen { (F.state shelf.old).faults < (F.state shelf.new).faults → (result ≡ 3) ⊎ (result ≡ 8) }

    // The same of a write fault.
    ensures write_only { result ≡ 7 → Rose (O.state out.old).faults (O.state out.new).faults }
    ensures write_seen { (O.state out.old).faults < (O.state out.new).faults → (result ≡ 7) ⊎ (result ≡ 8) }

    // After a refusal nothing was written, and after a write fault or want of memory a front of the
    // outcome.
    ensures nothing { 2 ≤ result → result ≤ 6 → (O.state out.new).taken ≡ (O.state out.old).taken }
    ensures front { (files : Files) → Knows (F.state shelf.old).files (plan_of (map string_bytes words.now)) files
        → 7 ≤ result → TakesFront (outcome (map string_bytes words.now) files).out (O.state out.old) (O.state out.new) }

    // Messages: none after 0 and 1, and that of the status after 2, 3, 7 and 8.
    ensures silent { result < 2 → (E.state err.new).taken ≡ (E.state err.old).taken }
    ensures message { SaysStatus result (E.state err.old) (E.state err.new) }

    // The program makes no read fault of its own: not on a steady shelf that holds what is asked
    // for, and not where nothing is asked for.
    ensures steady { IsTrue (F.state shelf.old).steady → IfSome (F.state shelf.old).files (λ files.
        HoldsAsked (plan_of (map string_bytes words.now)) files → (F.state shelf.new).faults ≡ (F.state shelf.old).faults) }
    ensures quiet { AsksNothing (plan_of (map string_bytes words.now)) → (F.state shelf.new).faults ≡ (F.state shelf.old).faults }

    // How often a file is begun: no more often than the words have names of files, and in the side
    // slot once, where the outcome asks for it.
    ensures begins { BeginsAtMost (names_in (map string_bytes words.now)) 1 (F.state shelf.old) (F.state shelf.new) }
    ensures side_asked { IfSome (F.state shelf.old).files (λ files. ((F.state shelf.new).reading Side).begins
        ≤ ((F.state shelf.old).reading Side).begins + side_asks (plan_of (map string_bytes words.now)) files) }
{
    let answer = answer::<Any, F>(alloc, words, shelf);
    write_answer(alloc, answer, out, err)
}
