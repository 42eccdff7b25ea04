//! What the program does: the call that carries its promises.
ghost use Rattle.std.specs.Prelude.{◌≡◌, ◌≢◌, ◌⊎◌, ℕ, Bool, List, true, false, IfOk, IfErr, IfSome};
ghost use Rattle.std.specs.Prelude.{take};
ghost use Rattle.sds_config.specs.Configuration.{IsConfiguration, IsFirstRefusal};
ghost use Rattle.sds_outside.specs.Causes.{Rose};
ghost use Rattle.sds_outside.specs.Told.{IsAtEnd};
ghost use Rattle.sds_first_spec.specs.Happens.{world_after};
ghost use Rattle.sds_first_spec.specs.InStep.{InStep};
ghost use Rattle.sds_first_spec.specs.One.{one};
ghost use Rattle.sds_first_spec.specs.World.{empty_world};
ghost use Rattle.sds_first_world.specs.Played.{events_of};
ghost use Rattle.symds.specs.Configured.{IsRefusedBy, IsUnread, SaysRefusal, TellsOf};
ghost use Rattle.symds.specs.Help.{IsPrinted, help_text, version_text};
ghost use Rattle.symds.specs.Rehearsed.{IsCausedBy, IsFirstCause, IsNoFault, cause_of, status_by};
ghost use Rattle.symds.specs.Rehearsed.{Tells};
ghost use Rattle.symds.specs.Words.{IsHelp, IsMisfit, IsOrder, IsRefused, IsVersion};

use crate::help::{help_text, version_text};
use crate::words::{Order, WordsRefusal, read_words};
use sds_base::Txt;
use sds_config::ReadConfig;
use sds_first_world::{WorldRefusal, rehearse};
use sds_outside::{Keeper, Link, ReadStop, Sink, Source, read_all, write_all};
use sds_types::limits::MOST_CONFIG_BYTES;
use sds_types::{Config, ConfigRefusal, InputCause, ScenarioCause, Status, Unreadable};
use std::alloc::Global;

/// Does what the words ask for: `rehearse` reads the configuration file, plays the scenario of
/// `input` under it and writes its screen to `out`; help and the version are written to `out`.
/// Other words are refused before anything is read, and a configuration that is refused before the
/// input is read. The keeper is handed back as it was; the link isn't touched.
pub fn run<K: Keeper, S: Source, I: Source, W: Sink, L: Link>(
    alloc: Global,
    words: &[Txt],
    config: &mut S,
    input: &mut I,
    keeper: K,
    link: &mut L,
    noise: [u8; 16],
    out: &mut W,
) -> (Status, K)
    // WORDS. They are refused at the first word that doesn't fit, with nothing written; help and
    // the version are printed. Where they are no order, neither the configuration nor the input is
    // read.
    ensures words { (place : ℕ) → result.0 ≡ Status.Words place
        → IsRefused words.now (WordsRefusal.Bad place) × (out.new ≡ out.old) }
    ensures misfit { (place : ℕ) → IsMisfit words.now place
        → (result.0 ≡ Status.NoMemory) ⊎ (result.0 ≡ Status.Words place) }
    ensures help { IsHelp words.now
        → IsPrinted help_text result.0 (W.taken out.old) (W.taken out.new) }
    ensures version { IsVersion words.now
        → IsPrinted version_text result.0 (W.taken out.old) (W.taken out.new) }
    ensures unread { ((order : Order) → IsOrder words.now order → ⊥)
        → (config.new ≡ config.old) × (input.new ≡ input.old) }

    // CONFIGURATION. A file that is refused is answered with its first refusal, and the input isn't
    // read.
    ensures refused { (order : Order) → IsOrder words.now order
        → IfSome (S.left config.old) (λ file.
        IsRefusedBy file result.0 (W.taken out.old) (W.taken out.new)) }
    ensures config_untouched { (refusal : ConfigRefusal) → result.0 ≡ Status.Config refusal
        → (input.new ≡ input.old) × (out.new ≡ out.old) }

    // REHEARSAL. What is answered and written is what the texts of the configuration and of the
    // input say; Done only where the input was read to its end. After each event of the scenario
    // the nodes are in step.
    ensures tells { (order : Order) → IsOrder words.now order → IfSome (S.left config.old) (λ file.
        IfSome (I.left input.old) (λ text.
        TellsOf file text result.0 (W.taken out.old) (W.taken out.new))) }
    ensures done { (order : Order) → IsOrder words.now order → result.0 ≡ Status.Done
        → IsAtEnd (I.left input.new) }
    ensures in_step { IfSome (I.left input.old) (λ text. (is_built : Bool) (n : ℕ)
        → InStep one (world_after one empty_world (take n (events_of is_built text)))) }

    // CAUSES. A fault is answered only where the count of what failed rose in this call.
    ensures read { (what : Unreadable) → result.0 ≡ Status.ReadFault what
        → IsCausedBy what (Rose (S.faults config.old) (S.faults config.new))
        (Rose (I.faults input.old) (I.faults input.new)) }
    ensures read_writes { (what : Unreadable) → result.0 ≡ Status.ReadFault what
        → W.taken out.new ≡ W.taken out.old }
    ensures write { result.0 ≡ Status.WriteFault → Rose (W.faults out.old) (W.faults out.new) }
    ensures cause { (line : ℕ) (cause : InputCause) → result.0 ≡ Status.BadInput line cause
        → IsFirstCause cause }
    ensures keeper { result.1 ≡ keeper }
    ensures link { link.new ≡ link.old }
{
    let _ = link;
    let _order = match read_words(alloc, words) {
        Ok(order) => order,
        Err(WordsRefusal::Bad(place)) => return (Status::Words { place }, keeper),
        Err(WordsRefusal::Help) => return (print(help_text(), out), keeper),
        Err(WordsRefusal::Version) => return (print(version_text(), out), keeper),
        Err(WordsRefusal::NoMemory) => return (Status::NoMemory, keeper),
    };
    (play(alloc, config, input, noise, out), keeper)
}

/// Writes a text.
fn print<W: Sink>(text: &str, out: &mut W) -> Status
    ensures printed { IsPrinted text.now result (W.taken out.old) (W.taken out.new) }
    ensures ends { (result ≡ Status.Done) ⊎ (result ≡ Status.WriteFault) }
    ensures write { result ≡ Status.WriteFault → Rose (W.faults out.old) (W.faults out.new) }
{
    if write_all(out, text.as_bytes()).is_err() {
        return Status::WriteFault;
    }
    Status::Done
}

/// Reads the configuration, and plays the scenario of the input under it.
fn play<S: Source, I: Source, W: Sink>(
    alloc: Global,
    config: &mut S,
    input: &mut I,
    noise: [u8; 16],
    out: &mut W,
) -> Status
    ensures tells { IfSome (S.left config.old) (λ file. IfSome (I.left input.old) (λ text.
        TellsOf file text result (W.taken out.old) (W.taken out.new))) }
    ensures refused { IfSome (S.left config.old) (λ file.
        IsRefusedBy file result (W.taken out.old) (W.taken out.new)) }
    ensures done { result ≡ Status.Done → IsAtEnd (I.left input.new) }
    ensures words { (place : ℕ) → result ≡ Status.Words place → ⊥ }
    ensures config_untouched { (refusal : ConfigRefusal) → result ≡ Status.Config refusal
        → (input.new ≡ input.old) × (out.new ≡ out.old) }
    ensures read { (what : Unreadable) → result ≡ Status.ReadFault what
        → IsCausedBy what (Rose (S.faults config.old) (S.faults config.new))
        (Rose (I.faults input.old) (I.faults input.new)) }
    ensures read_writes { (what : Unreadable) → result ≡ Status.ReadFault what
        → W.taken out.new ≡ W.taken out.old }
    ensures write { result ≡ Status.WriteFault → Rose (W.faults out.old) (W.faults out.new) }
    ensures cause { (line : ℕ) (cause : InputCause) → result ≡ Status.BadInput line cause
        → IsFirstCause cause }
{
    let config = match read_config(alloc, config) {
        Ok(config) => config,
        Err(status) => return status,
    };
    play_under(alloc, &config, input, noise, out)
}

/// Reads the configuration of a file, or says with which status the call ends.
fn read_config<S: Source>(alloc: Global, source: &mut S) -> Result<Config, Status>
    ensures ok { IfOk result (λ config.
        IfSome (S.left source.old) (λ file. IsConfiguration file config)) }
    ensures refused { IfErr result (λ status. IsNoFault status → status ≢ Status.NoMemory
        → IfSome (S.left source.old) (λ file. SaysRefusal file status)) }
    ensures fault { IfErr result (λ status. (what : Unreadable) → status ≡ Status.ReadFault what
        → (what ≡ Unreadable.Configuration) × Rose (S.faults source.old) (S.faults source.new)) }
    ensures other { IfErr result IsUnread }
{
    let whole = match read_all(alloc, source, MOST_CONFIG_BYTES) {
        Ok(whole) => whole,
        Err(ReadStop::Fault) => return Err(Status::ReadFault(Unreadable::Configuration)),
        Err(ReadStop::NoMemory) => return Err(Status::NoMemory),
    };
    match Config::read(alloc, whole.bytes.inner()) {
        Ok(config) => Ok(config),
        Err(refusal) => Err(refused(refusal)),
    }
}

/// The status of a configuration that is refused.
fn refused(refusal: ConfigRefusal) -> Status
    ensures said { result ≢ Status.NoMemory → result ≡ Status.Config refusal }
    ensures memory { refusal ≡ ConfigRefusal.NoMemory → result ≡ Status.NoMemory }
    ensures other { IsUnread result }
{
    match refusal {
        ConfigRefusal::NoMemory => Status::NoMemory,
        refusal => Status::Config(refusal),
    }
}

/// Plays the scenario of the input under a configuration.
fn play_under<I: Source, W: Sink>(
    alloc: Global,
    config: &Config,
    input: &mut I,
    noise: [u8; 16],
    out: &mut W,
) -> Status
    ensures tells { config.now ≡ one → IfSome (I.left input.old) (λ text.
        Tells true text result (W.taken out.old) (W.taken out.new)) }
    ensures unbuilt { config.now ≢ one → IfSome (I.left input.old) (λ text.
        Tells false text result (W.taken out.old) (W.taken out.new)) }
    ensures done { result ≡ Status.Done → IsAtEnd (I.left input.new) }
    ensures words { (place : ℕ) → result ≡ Status.Words place → ⊥ }
    ensures config { (refusal : ConfigRefusal) → result ≡ Status.Config refusal → ⊥ }
    ensures read { (what : Unreadable) → result ≡ Status.ReadFault what
        → (what ≡ Unreadable.Input) × Rose (I.faults input.old) (I.faults input.new) }
    ensures read_writes { (what : Unreadable) → result ≡ Status.ReadFault what
        → W.taken out.new ≡ W.taken out.old }
    ensures write { result ≡ Status.WriteFault → Rose (W.faults out.old) (W.faults out.new) }
    ensures cause { (line : ℕ) (cause : InputCause) → result ≡ Status.BadInput line cause
        → IsFirstCause cause }
{
    let (ending, _keepers) = rehearse(alloc, config, input, noise, out);
    status_by(ending)
}

/// The status of a rehearsal's ending.
fn status_by(ending: Result<(), WorldRefusal>) -> Status
    ensures { result ≡ status_by ending }
{
    match ending {
        Ok(()) => Status::Done,
        Err(WorldRefusal::ReadFault) => Status::ReadFault(Unreadable::Input),
        Err(WorldRefusal::WriteFault) => Status::WriteFault,
        Err(WorldRefusal::BadLine { line, cause }) => Status::BadInput {
            line,
            cause: InputCause::Scenario(cause_of(cause)),
        },
        Err(WorldRefusal::NoMemory) => Status::NoMemory,
    }
}

/// The cause of a number that the first rehearsal gives.
fn cause_of(number: u8) -> ScenarioCause
    ensures { result ≡ cause_of number }
{
    match number {
        1 => ScenarioCause::BadForm,
        4 => ScenarioCause::Unfinished,
        5 => ScenarioCause::TooLong,
        _ => ScenarioCause::NotSupported,
    }
}
