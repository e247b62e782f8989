//! The top call.
ghost use Rattle.std.specs.Prelude.{◌≡◌, ◌≢◌, ◌⊎◌, ℕ, List, length, map, string_bytes, Some, IfSome, IsSome, IsNone};
ghost use Rattle.tlb_edge.specs.Causes.{Rose};
ghost use Rattle.tlb_edge.specs.SureShelf.{held_by};
ghost use Rattle.tlb_files.specs.Counts.{FileName, Opens, counts};
ghost use Rattle.tlb_files.specs.Loads.{Fails, IsTooLong};
ghost use Rattle.tlb_files.specs.Pieces.{Puts, PutsPrefix, output};
ghost use Rattle.cli_commands.specs.Forms.{form_of, files_of};
ghost use Rattle.cli_run.specs.Ran.{Answered, IsCalm, IsJudged, IsLoaded, IsPut, IsRefusal, IsRefusalLine, OpensSome, PutsOutcome, Ran, faults};
ghost use Rattle.cli_refusals.specs.Refusal.{Verdict, refusal_line, too_long, unread};

use crate::answer::answer_to;
use cli_commands::Form;
use cli_commands::laws::each_command_answers_once;
use cli_refusals::Status;
use std::alloc::Global;
use tlb_edge::SureShelf;
use tlb_files::{Shelf, Sink, put_all};

// Does what the words say, by all that is known of it.
fn perform<H: Shelf, K: Sink>(alloc: Global, words: &[String], shelf: &mut H, out: &mut K) -> Status
    ensures held { H.held shelf.new ≡ H.held shelf.old }
    ensures ran { Ran (form_of (map string_bytes words.now)) (H.held shelf.old)
        (counts (H.opens shelf.old) (H.given shelf.old) (H.reads shelf.old) (H.faults shelf.old))
        (counts (H.opens shelf.new) (H.given shelf.new) (H.reads shelf.new) (H.faults shelf.new))
        (output (K.written out.old) (K.puts out.old)) (output (K.written out.new) (K.puts out.new))
        (faults (K.faults out.old) (K.faults out.new)) result }
{
    let Some(form) = Form::of(words) else {
        return match put_all(out, b"refused: usage\n") {
            Ok(()) => Status::Usage,
            Err(_) => Status::WriteFault,
        };
    };
    match answer_to(alloc, form, shelf) {
        Err(_) => Status::NoMemory,
        Ok(answer) => match put_all(out, &answer.text) {
            Ok(()) => answer.status,
            Err(_) => Status::WriteFault,
        },
    }
}

/// Does what the words say, which are those of the command line without the program's name. The answer's
/// text, or the line of a refusal, goes to `out`.
pub fn run<H: Shelf, K: Sink>(alloc: Global, words: &[String], shelf: &mut H, out: &mut K) -> Status
    // Where it is reported what is held, the status and the text are those of the outcome.
    ensures outcome { IsJudged result → IfSome (H.held shelf.old) (λ held. PutsOutcome
        (map string_bytes words.now) held result
        (output (K.written out.old) (K.puts out.old)) (output (K.written out.new) (K.puts out.new))) }

    // It is a usage fault exactly where the words are no command form, unless its line could not be put.
    ensures usage { result ≡ Status.Usage → IsNone (form_of (map string_bytes words.now)) }
    ensures no_form { IsNone (form_of (map string_bytes words.now)) → (result ≡ Status.Usage)
        ⊎ (result ≡ Status.WriteFault) }

    // Where a call of the shelf failed, exactly the line that names the file that was opened last was put.
    ensures read_fault { result ≡ Status.ReadFault → (file : FileName)
        × Fails (files_of (form_of (map string_bytes words.now)))
        (counts (H.opens shelf.old) (H.given shelf.old) (H.reads shelf.old) (H.faults shelf.old))
        (counts (H.opens shelf.new) (H.given shelf.new) (H.reads shelf.new) (H.faults shelf.new)) file
        × Puts (output (K.written out.old) (K.puts out.old)) (output (K.written out.new) (K.puts out.new))
        (refusal_line (unread file.name)) }

    // A file is too long only where its reads gave more than its limit, and the line names it.
    ensures too_long { result ≡ Status.TooLong → (file : FileName)
        × IsTooLong (H.held shelf.old) (files_of (form_of (map string_bytes words.now)))
        (counts (H.opens shelf.old) (H.given shelf.old) (H.reads shelf.old) (H.faults shelf.old))
        (counts (H.opens shelf.new) (H.given shelf.new) (H.reads shelf.new) (H.faults shelf.new)) file
        × Puts (output (K.written out.old) (K.puts out.old)) (output (K.written out.new) (K.puts out.new))
        (refusal_line (too_long file.name)) }

    // Where a put failed, a prefix of the answer's text was put.
    ensures write_fault { result ≡ Status.WriteFault → Rose (K.faults out.old) (K.faults out.new) }
    ensures prefix { result ≡ Status.WriteFault → (verdict : Verdict)
        × Answered (form_of (map string_bytes words.now)) (H.held shelf.old)
        (counts (H.opens shelf.old) (H.given shelf.old) (H.reads shelf.old) (H.faults shelf.old))
        (counts (H.opens shelf.new) (H.given shelf.new) (H.reads shelf.new) (H.faults shelf.new)) verdict
        × PutsPrefix (output (K.written out.old) (K.puts out.old)) (output (K.written out.new) (K.puts out.new))
        verdict.text }

    // Where memory ended, nothing was put.
    ensures no_memory { result ≡ Status.NoMemory → IsSome (form_of (map string_bytes words.now))
        × (K.written out.new ≡ K.written out.old) × (K.puts out.new ≡ K.puts out.old) }

    // In all other cases one text was put, and a refusal leaves one line of its own.
    ensures puts { IsPut result → (text : List ℕ)
        × Puts (output (K.written out.old) (K.puts out.old)) (output (K.written out.new) (K.puts out.new)) text }
    ensures refused { IsRefusal result → (text : List ℕ) × IsRefusalLine text
        × Puts (output (K.written out.old) (K.puts out.old)) (output (K.written out.new) (K.puts out.new)) text }

    // The files of the command are opened from the first on, each once: all of them, unless one failed or was too long,
    // or memory ended. So none is opened where the words are no command form.
    ensures opens { OpensSome (files_of (form_of (map string_bytes words.now)))
        (counts (H.opens shelf.old) (H.given shelf.old) (H.reads shelf.old) (H.faults shelf.old))
        (counts (H.opens shelf.new) (H.given shelf.new) (H.reads shelf.new) (H.faults shelf.new)) }
    ensures loaded { IsLoaded result → Opens (files_of (form_of (map string_bytes words.now)))
        (length (files_of (form_of (map string_bytes words.now))))
        (counts (H.opens shelf.old) (H.given shelf.old) (H.reads shelf.old) (H.faults shelf.old))
        (counts (H.opens shelf.new) (H.given shelf.new) (H.reads shelf.new) (H.faults shelf.new)) }

    // No failed call is passed over.
    ensures calm_shelf { IsLoaded result → H.faults shelf.new ≡ H.faults shelf.old }
    ensures calm_sink { result ≢ Status.WriteFault → K.faults out.new ≡ K.faults out.old }

    // The files that are held stay.
    ensures held { H.held shelf.new ≡ H.held shelf.old }
{
    each_command_answers_once();
    perform(alloc, words, shelf, out)
}

/// `run` over a shelf and a sink of which no call fails answers the outcome, where memory is given.
pub fn run_honestly<H: Shelf, K: Sink>(
    alloc: Global,
    words: &[String],
    shelf: &mut H,
    out: &mut K,
) -> Status
    ensures complete { IsCalm (H.faults shelf.old) (H.faults shelf.new) → IsCalm (K.faults out.old) (K.faults out.new)
        → result ≢ Status.NoMemory →
        IfSome (H.held shelf.old) (λ held. PutsOutcome (map string_bytes words.now) held result
        (output (K.written out.old) (K.puts out.old)) (output (K.written out.new) (K.puts out.new))) }
{
    run(alloc, words, shelf, out)
}

/// `run` over a shelf that never fails and a sink of which no call fails answers and writes the outcome, where memory
/// is given.
pub fn run_surely<K: Sink>(
    alloc: Global,
    words: &[String],
    shelf: &mut SureShelf,
    out: &mut K,
) -> Status
    ensures reads { result ≢ Status.ReadFault }
    ensures writes { IsCalm (K.faults out.old) (K.faults out.new) → result ≢ Status.WriteFault }
    ensures complete { IsCalm (K.faults out.old) (K.faults out.new) → result ≢ Status.NoMemory →
        PutsOutcome (map string_bytes words.now) (held_by shelf.old) result
        (output (K.written out.old) (K.puts out.old)) (output (K.written out.new) (K.puts out.new)) }
{
    run(alloc, words, shelf, out)
}
