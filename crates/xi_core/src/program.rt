ghost use Rattle.std.specs.Prelude.{◌≡◌, ◌≤◌, IfOk, IfSome, length};
ghost use Rattle.std.specs.Process.{exit_status};
ghost use Rattle.storm_lines.specs.Forms.{form_in};
ghost use Rattle.xi_core.specs.Words.{EndsFor, EndsForSome, EndsRun, EndsWithStatus, IsForNoRun, handed_count, invocation_in, run_in};

use crate::methods::print_methods;
use crate::replaying::played;
use crate::taped::keep;
use crate::texts::{Stream, said_text, stream_of};
use crate::words::{Handed, Invocation, form_words, invocation_of, words};
use macro_record::TapeSource;
use outside::{FileShelf, FreeGate, Shelf, Sink, Source, StdSink, StdSource};
use plain_text::{NoMemory, Text};
use shipped_plugins::{StormPlugin, TodoMarks};
use std::alloc::Global;
use std::process::ExitCode;
use std::sync::Wait;
use std::thread::Threads;
use xi_forms::{Form, Plugin, Report, xi_main};

/// Does what the words of the process ask, with plugins on these threads, and gives the status that it ends with.
pub fn status<R: Threads + Wait + Sync>(rt: &HostRuntime, threads: &R) -> ExitCode
    ensures { EndsForSome (exit_status result) }
{
    match words(rt) {
        Ok(words) => answered(rt, threads, words.as_slice()),
        Err(_) => ExitCode::from(3),
    }
}

/// Does what these words ask.
fn answered<R: Threads + Wait + Sync>(rt: &HostRuntime, threads: &R, words: &[Text]) -> ExitCode
    ensures { EndsFor words.now (exit_status result) }
{
    let invocation = invocation_of(words);
    match invocation {
        Invocation::Run(form, handed) => run(rt, threads, words, None, form, handed),
        Invocation::Record(form, handed) => run_recorded(rt, threads, words, form, handed),
        Invocation::Replay => played(rt, &words[1]),
        Invocation::Methods => listed(rt),
        _ => told(rt, invocation),
    }
}

/// Says what the program says of itself.
fn told(rt: &HostRuntime, invocation: Invocation) -> ExitCode
    requires { IsForNoRun invocation }
    ensures { EndsWithStatus invocation (exit_status result) }
{
    let text = said_text(invocation);
    match stream_of(invocation) {
        Stream::Output => match println!(rt; "{text}") {
            Ok(()) => ExitCode::SUCCESS,
            Err(_) => ExitCode::from(5),
        },
        Stream::Error => {
            let _ = eprintln!(rt; "{text}");
            ExitCode::from(2)
        }
    }
}

/// Prints the methods that lines may name.
fn listed(rt: &HostRuntime) -> ExitCode
    ensures { EndsWithStatus Invocation.Methods (exit_status result) }
{
    match print_methods(rt) {
        Ok(()) => ExitCode::SUCCESS,
        Err(_) => ExitCode::from(5),
    }
}

/// The run that the words behind the folder ask for, kept there.
fn run_recorded<R: Threads + Wait + Sync>(
    rt: &HostRuntime,
    threads: &R,
    words: &[Text],
    form: Form,
    handed: Handed,
) -> ExitCode
    requires { invocation_in words.now ≡ Invocation.Record form handed }
    ensures { EndsWithStatus (Invocation.Record form handed) (exit_status result) }
{
    let (_named, later) = words.split_at(2);
    run(rt, threads, later, Some(&words[1]), form, handed)
}

/// The run that these words ask for, with these plugins, and kept in this folder, where there is one.
fn run<R: Threads + Wait + Sync>(
    rt: &HostRuntime,
    threads: &R,
    words: &[Text],
    folder: Option<&Text>,
    form: Form,
    handed: Handed,
) -> ExitCode
    requires { run_in words.now ≡ Invocation.Run form handed }
    ensures { EndsWithStatus (Invocation.Run form handed) (exit_status result) }
{
    let words = form_words(words);
    match form {
        Form::Threads | Form::Alone => {
            let plugin = TodoMarks::new(rt.alloc());
            run_beside(rt, threads, words, folder, handed, plugin)
        }
        Form::Storm { .. } => {
            let plugin = StormPlugin::new(rt.alloc());
            run_beside(rt, threads, words, folder, handed, plugin)
        }
    }
}

/// The run beside this plugin, or without one.
fn run_beside<R: Threads + Wait + Sync, P: Plugin + Send>(
    rt: &HostRuntime,
    threads: &R,
    words: &[Text],
    folder: Option<&Text>,
    handed: Handed,
    plugin: P,
) -> ExitCode
    ensures { IfSome (form_in words.now) (λ form. EndsWithStatus (Invocation.Run form handed) (exit_status result)) }
{
    match plugins(rt.alloc(), handed, plugin) {
        Ok(plugins) => match folder {
            None => run_with(rt, threads, words, plugins),
            Some(folder) => run_taped(rt, threads, words, folder, plugins),
        },
        Err(_) => ExitCode::from(3),
    }
}

/// The plugins that a run is handed.
fn plugins<P: Plugin>(alloc: Global, handed: Handed, plugin: P) -> Result<Vec<P>, NoMemory>
    ensures { IfOk result (λ plugins. length plugins.items ≡ handed_count handed) }
{
    let mut plugins = Vec::new(alloc);
    match handed {
        Handed::Shipped => plugins.push(plugin)?,
        Handed::Nothing => {}
    }
    Ok(plugins)
}

/// The run over the standard streams and the files of the system: its status is the report's.
fn run_with<R: Threads + Wait + Sync, P: Plugin + Send>(
    rt: &HostRuntime,
    threads: &R,
    words: &[Text],
    plugins: Vec<P>,
) -> ExitCode
    requires few { length plugins.items ≤ 64 }
    ensures { IfSome (form_in words.now) (λ form. EndsRun form (length plugins.items) (exit_status result)) }
{
    let mut source = StdSource::new(rt.stdin());
    let sink = StdSink::new(rt.stdout());
    let shelf = FileShelf::new(rt);
    let report = report_of(
        threads,
        rt.alloc(),
        words,
        &mut source,
        sink,
        shelf,
        plugins,
    );
    code_of(&report)
}

/// The same run, whose tape and journal are saved in a folder when it ends. What was not saved is told, and changes no status.
fn run_taped<R: Threads + Wait + Sync, P: Plugin + Send>(
    rt: &HostRuntime,
    threads: &R,
    words: &[Text],
    folder: &Text,
    plugins: Vec<P>,
) -> ExitCode
    requires few { length plugins.items ≤ 64 }
    ensures { IfSome (form_in words.now) (λ form. EndsRun form (length plugins.items) (exit_status result)) }
{
    let mut source = TapeSource::new(rt.alloc(), StdSource::new(rt.stdin()));
    let sink = StdSink::new(rt.stdout());
    let shelf = FileShelf::new(rt);
    let report = report_of(
        threads,
        rt.alloc(),
        words,
        &mut source,
        sink,
        shelf,
        plugins,
    );
    keep(rt, folder, &source, &report.journal);
    code_of(&report)
}

/// The run by the words of a form.
fn report_of<
    S: Source,
    K: Sink + Send,
    H: Shelf + Send,
    P: Plugin + Send,
    R: Threads + Wait + Sync,
>(
    threads: &R,
    alloc: Global,
    words: &[Text],
    source: &mut S,
    sink: K,
    shelf: H,
    plugins: Vec<P>,
) -> Report<K, H, P>
    requires few { length plugins.items ≤ 64 }
    ensures { IfSome (form_in words.now) (λ form. EndsRun form (length plugins.items) result.status) }
{
    xi_main(
        threads, alloc, words, source, sink, shelf, plugins, &FreeGate,
    )
}

/// The process ends with the status of its run.
fn code_of<K, H, P>(report: &Report<K, H, P>) -> ExitCode
    ensures { exit_status result ≡ report.now.status }
{
    ExitCode::from(report.status)
}
