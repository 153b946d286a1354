// The top call.
ghost use Rattle.std.specs.Prelude.{◌≡◌, ◌≤◌, Some, map, string_bytes};
ghost use Rattle.gate_io.specs.Told.{Rose};
ghost use Rattle.command_statuses.specs.Statuses.{status_line};
ghost use Rattle.command_words.specs.Forms.{form_of, seen};
ghost use Rattle.commands.specs.Doing.{IsForm, Obeys, TakesLine};
ghost use Rattle.commands.specs.Reading.{ReadsFor};

use crate::obeying::{
    obey_check, obey_generate, obey_invoke, obey_replay, obey_replay_config, obey_report,
    obey_serve,
};
use command_statuses::Status;
use command_words::{Form, read_words};
use gate_io::{Files, Gate, Sink, Site};
use std::alloc::Global;
use std::sync::Wait;
use std::thread::Threads;

/// Does what the words say: `serve` by the sockets of the site; `serve` and `generate` with a gate before each turn and inside each shared call. `out` takes the
/// output, `err` the line of the status.
pub fn run<R: Threads + Wait + Sync, F: Files, S: Site, O: Sink, E: Sink, G: Gate + Sync>(
    rt: &R,
    alloc: Global,
    words: &[String],
    files: &mut F,
    site: &mut S,
    out: &mut O,
    err: &mut E,
    gate: &G,
) -> Status
    // What the words say is done, from the files that they name alone.
    ensures obeys { Obeys (record { trace = S.W.trace; last = S.W.last; nature = S.W.nature; faults = S.W.faults }) (F.holds files.old) (form_of (map string_bytes words.now)) result
        (record { started = S.started site.old; seeds = S.seeds site.old; returned = S.returned site.old; faults = S.faults site.old })
        (record { started = S.started site.new; seeds = S.seeds site.new; returned = S.returned site.new; faults = S.faults site.new })
        (O.taken out.old) (O.taken out.new) }
    ensures reads { ReadsFor (F.holds files.old) (form_of (map string_bytes words.now)) result (F.paths files.old) (F.paths files.new) }

    // The causes of faults.
    ensures file_faults { F.faults files.old ≤ F.faults files.new }
    ensures file_fault { result ≡ Status.FileFault → Rose (F.faults files.old) (F.faults files.new) }
    ensures site_faults { S.faults site.old ≤ S.faults site.new }
    ensures out_faults { O.faults out.old ≤ O.faults out.new }
    ensures out_fault { result ≡ Status.OutFault → Rose (O.faults out.old) (O.faults out.new) }

    // The line of the status.
    ensures line { TakesLine (E.taken err.old) (status_line result) (E.taken err.new) (E.faults err.old) (E.faults err.new) }
{
    let status = obey(rt, alloc, words, files, site, out, gate);
    let _ = status.report(err);
    status
}

/// Does what the words say.
fn obey<R: Threads + Wait + Sync, F: Files, S: Site, O: Sink, G: Gate + Sync>(
    rt: &R,
    alloc: Global,
    words: &[String],
    files: &mut F,
    site: &mut S,
    out: &mut O,
    gate: &G,
) -> Status
    ensures obeys { Obeys (record { trace = S.W.trace; last = S.W.last; nature = S.W.nature; faults = S.W.faults }) (F.holds files.old) (form_of (map string_bytes words.now)) result
        (record { started = S.started site.old; seeds = S.seeds site.old; returned = S.returned site.old; faults = S.faults site.old })
        (record { started = S.started site.new; seeds = S.seeds site.new; returned = S.returned site.new; faults = S.faults site.new })
        (O.taken out.old) (O.taken out.new) }
    ensures reads { ReadsFor (F.holds files.old) (form_of (map string_bytes words.now)) result (F.paths files.old) (F.paths files.new) }
    ensures file_faults { F.faults files.old ≤ F.faults files.new }
    ensures file_fault { result ≡ Status.FileFault → Rose (F.faults files.old) (F.faults files.new) }
    ensures site_faults { S.faults site.old ≤ S.faults site.new }
    ensures out_faults { O.faults out.old ≤ O.faults out.new }
    ensures out_fault { result ≡ Status.OutFault → Rose (O.faults out.old) (O.faults out.new) }
{
    match read_words(alloc, words) {
        Ok(Some(form)) => carry_out(rt, alloc, form, files, site, out, gate),
        Ok(None) => Status::Usage,
        Err(_) => Status::OutOfMemory,
    }
}

/// Does what a form asks for.
fn carry_out<R: Threads + Wait + Sync, F: Files, S: Site, O: Sink, G: Gate + Sync>(
    rt: &R,
    alloc: Global,
    form: Form<'_>,
    files: &mut F,
    site: &mut S,
    out: &mut O,
    gate: &G,
) -> Status
    requires few { IsForm (seen form) }
    ensures obeys { Obeys (record { trace = S.W.trace; last = S.W.last; nature = S.W.nature; faults = S.W.faults }) (F.holds files.old) (Some (seen form.entry)) result
        (record { started = S.started site.old; seeds = S.seeds site.old; returned = S.returned site.old; faults = S.faults site.old })
        (record { started = S.started site.new; seeds = S.seeds site.new; returned = S.returned site.new; faults = S.faults site.new })
        (O.taken out.old) (O.taken out.new) }
    ensures reads { ReadsFor (F.holds files.old) (Some (seen form.entry)) result (F.paths files.old) (F.paths files.new) }
    ensures file_faults { F.faults files.old ≤ F.faults files.new }
    ensures file_fault { result ≡ Status.FileFault → Rose (F.faults files.old) (F.faults files.new) }
    ensures site_faults { S.faults site.old ≤ S.faults site.new }
    ensures out_faults { O.faults out.old ≤ O.faults out.new }
    ensures out_fault { result ≡ Status.OutFault → Rose (O.faults out.old) (O.faults out.new) }
{
    match form {
        Form::Replay { script, modules } => obey_replay(alloc, script, modules, files, site, out),
        Form::ReplayConfig { config, script } => {
            obey_replay_config(alloc, config, script, files, site, out)
        }
        Form::Serve { config, stop_after } => {
            obey_serve(rt, alloc, config, stop_after, files, site, out, gate)
        }
        Form::Check { config } => obey_check(alloc, config, files, site, out),
        Form::Invoke {
            module,
            export,
            arguments,
        } => obey_invoke(alloc, module, export, arguments, files, site, out),
        Form::Generate { n } => obey_generate(rt, alloc, n, files, site, out, gate),
        Form::Report { module } => obey_report(alloc, module, files, site, out),
    }
}
