//! The top call.

ghost use Rattle.std.specs.Prelude.{◌≡◌, ◌≤◌, ◌⊎◌, None, Some, IfErr, IfOk, IfSome, IsSome, OnOk, length, vec_len};
ghost use Rattle.std.specs.Option.{option_map};
ghost use Rattle.ep_words.specs.View as words_seen;
ghost use Rattle.ep_words.specs.Words.{IsWithinRules, plain};
ghost use Rattle.endport.specs.Top.{Completes, EndsSo, IsSilent, IsTooLong, StopsSo, TextOf, WasRead, Written};
ghost use Rattle.endport.specs.Top.{file_asked, file_of, most_asked, most_of, under};
ghost use Rattle.ep_io.specs.Bytes.{Appended, FrontAppended, NoneLeft};
ghost use Rattle.ep_io.specs.Faults.{NeverFalls, Rose};

use crate::commands::done;
use crate::jobs::Job;
use crate::status::Status;
use ep_io::{ReadStop, Sink, Source, read_all, write_all};
use ep_words::{Command, asked};
use std::alloc::Global;

/// The most bytes that a source has.
const MOST_OF_SOURCE: u32 = 1_048_576;

/// The most bytes that a certificate has.
const MOST_OF_CERTIFICATE: u32 = 16_777_216;

/// What is written where the words aren't plain.
const USAGE: &[u8] = b"usage:
  endport check [--unroll N] [--orders A,B] [--model ilp32|lp64] [--domain bits] FILE
  endport run --order little|big|swapped-words --steps N [--model ilp32|lp64] FILE [INPUT..]
  endport layout [--model ilp32|lp64] FILE
  endport sample START FIELDS
  endport prove [--unroll N] [--orders A,B] [--model ilp32|lp64] FILE
  endport verify CERT
";

/// Does what the words ask: of a file a report on two machines that differ in byte order alone, a run on one machine,
/// the layouts of its types, or a certificate that its report is empty; the verdict on the certificate in a file; or
/// the report on a generated source. `src` has the file, and the text goes to `out`.
pub fn endport<S: Source, K: Sink>(
    alloc: Global,
    words: &Vec<String>,
    src: &mut S,
    out: &mut K,
) -> Status
    // What is written, and what it says of the bytes under the file.
    ensures written { let asked = plain (words_seen.words words.now.items) in
        Written asked (under asked (S.standing src.old)) result (K.written out.old) (K.written out.new) }

    ensures silent { IsSilent result → out.new ≡ out.old }

    // When each status comes.
    ensures usage { plain (words_seen.words words.now.items) ≡ None
        → (result ≡ Status.Usage) ⊎ (result ≡ Status.WriteFault) }
    ensures read_fault { result ≡ Status.ReadFault → Rose (S.faults src.old) (S.faults src.new) }
    ensures write_fault { result ≡ Status.WriteFault → Rose (K.faults out.old) (K.faults out.new) }
    ensures too_long { result ≡ Status.TooLong
        → IfSome (under (plain (words_seen.words words.now.items)) (S.standing src.old))
        (IsTooLong (most_asked (plain (words_seen.words words.now.items)))) }
    ensures always_too_long { IfSome (under (plain (words_seen.words words.now.items)) (S.standing src.old)) (λ bytes.
        IsTooLong (most_asked (plain (words_seen.words words.now.items))) bytes
        → (result ≡ Status.TooLong) ⊎ (result ≡ Status.Memory) ⊎ Rose (S.faults src.old) (S.faults src.new)) }

    ensures ends { EndsSo (plain (words_seen.words words.now.items)) result }
    // A right program gets its whole text, or memory wants.
    ensures complete { let asked = plain (words_seen.words words.now.items) in
        Completes asked (under asked (S.standing src.old)) (Rose (S.faults src.old) (S.faults src.new))
        (Rose (K.faults out.old) (K.faults out.new)) result }

    // What becomes of the source and the counts.
    ensures standing { S.standing src.new ≡ S.standing src.old }
    // Without a file the source is asked nothing.
    ensures unread { file_asked (plain (words_seen.words words.now.items)) ≡ None → src.new ≡ src.old }
    ensures to_its_end { IsSome (file_asked (plain (words_seen.words words.now.items)))
        → WasRead result → NoneLeft (S.left src.new) }
    ensures read_faults { NeverFalls (S.faults src.old) (S.faults src.new) }
    ensures write_faults { NeverFalls (K.faults out.old) (K.faults out.new) }
{
    let Some(command) = asked(words) else {
        return put(out, USAGE, Status::Usage);
    };
    match asked_job(alloc, &command, src) {
        Ok(job) => put(out, &job.text, job.status),
        Err(status) => status,
    }
}

// Writes the whole text.
fn put<K: Sink>(out: &mut K, text: &[u8], status: Status) -> Status
    ensures written { ((result ≡ status) × Appended (K.written out.old) text.now (K.written out.new)) ⊎
        ((result ≡ Status.WriteFault) × FrontAppended (K.written out.old) text.now (K.written out.new)
        × Rose (K.faults out.old) (K.faults out.new)) }
    ensures never_falls { NeverFalls (K.faults out.old) (K.faults out.new) }
{
    match write_all(out, text) {
        Ok(()) => status,
        Err(_) => Status::WriteFault,
    }
}

fn file_of<'a>(command: &Command<'a>) -> Option<&'a str>
    ensures { option_map (λ f. f.now) result ≡ file_of (words_seen.command command.now) }
{
    match command {
        Command::Check(check) => Some(check.file),
        Command::Layout(_, file) => Some(file),
        Command::Run(run) => Some(run.file),
        Command::Sample(_) => None,
        Command::Prove(prove) => Some(prove.file),
        Command::Verify(file) => Some(file),
    }
}

fn most_of(command: &Command) -> u32
    ensures { result ≡ most_of (words_seen.command command.now) }
{
    match command {
        Command::Check(_) => MOST_OF_SOURCE,
        Command::Layout(_, _) => MOST_OF_SOURCE,
        Command::Run(_) => MOST_OF_SOURCE,
        Command::Sample(_) => 0,
        Command::Prove(_) => MOST_OF_SOURCE,
        Command::Verify(_) => MOST_OF_CERTIFICATE,
    }
}

// What is asked, of the file where one is named.
fn asked_job<S: Source>(alloc: Global, command: &Command, src: &mut S) -> Result<Job, Status>
    requires { IsWithinRules (words_seen.command command.now) }
    ensures ok { IfOk result (λ j. let c = words_seen.command command.now in
        TextOf (Some c) (under (Some c) (S.standing src.old)) j.status j.text.items) }
    ensures within { OnOk result (IfSome (under (Some (words_seen.command command.now)) (S.standing src.old))
        (λ bytes. length bytes ≤ most_of (words_seen.command command.now))) }
    ensures end { OnOk result (IsSome (file_of (words_seen.command command.now)) → NoneLeft (S.left src.new)) }
    ensures stop { IfErr result (λ s. StopsSo (most_of (words_seen.command command.now))
        (under (Some (words_seen.command command.now)) (S.standing src.old))
        (S.faults src.old) (S.faults src.new) s) }
    ensures unread { file_of (words_seen.command command.now) ≡ None → src.new ≡ src.old }
    ensures memory { file_of (words_seen.command command.now) ≡ None → IfErr result (λ s. s ≡ Status.Memory) }
    ensures standing { S.standing src.new ≡ S.standing src.old }
    ensures never_falls { NeverFalls (S.faults src.old) (S.faults src.new) }
{
    match file_of(command) {
        Some(file) => read_and_do(alloc, command, file, src),
        None => unread_job(alloc, command),
    }
}

// What is asked, where no file is named.
fn unread_job(alloc: Global, command: &Command) -> Result<Job, Status>
    requires { IsWithinRules (words_seen.command command.now) }
    ensures ok { IfOk result (λ j. TextOf (Some (words_seen.command command.now)) None j.status j.text.items) }
    ensures memory { IfErr result (λ s. s ≡ Status.Memory) }
{
    let nothing = Vec::new(alloc);
    Ok(done(alloc, command, &nothing)?)
}

// Reads the file, and does what is asked of it.
fn read_and_do<S: Source>(
    alloc: Global,
    command: &Command,
    file: &str,
    src: &mut S,
) -> Result<Job, Status>
    requires { IsWithinRules (words_seen.command command.now) }
    ensures ok { IfOk result (λ j. let c = words_seen.command command.now in
        TextOf (Some c) (S.standing src.old file.now) j.status j.text.items) }
    ensures within { OnOk result (IfSome (S.standing src.old file.now)
        (λ bytes. length bytes ≤ most_of (words_seen.command command.now))) }
    ensures end { OnOk result (NoneLeft (S.left src.new)) }
    ensures stop { IfErr result (λ s. StopsSo (most_of (words_seen.command command.now)) (S.standing src.old file.now)
        (S.faults src.old) (S.faults src.new) s) }
    ensures standing { S.standing src.new ≡ S.standing src.old }
    ensures never_falls { NeverFalls (S.faults src.old) (S.faults src.new) }
{
    let bytes = read_file(alloc, file, most_of(command), src)?;
    Ok(done(alloc, command, &bytes)?)
}

// All bytes that stand under the file.
fn read_file<S: Source>(
    alloc: Global,
    file: &str,
    most: u32,
    src: &mut S,
) -> Result<Vec<u8>, Status>
    ensures bytes { IfOk result (λ v. IfSome (S.standing src.old file.now) (λ standing. standing ≡ v.items)) }
    ensures within { IfOk result (λ v. vec_len v ≤ most) }
    ensures end { OnOk result (NoneLeft (S.left src.new)) }
    ensures stop { IfErr result (λ s.
        StopsSo most (S.standing src.old file.now) (S.faults src.old) (S.faults src.new) s) }
    ensures standing { S.standing src.new ≡ S.standing src.old }
    ensures never_falls { NeverFalls (S.faults src.old) (S.faults src.new) }
{
    if src.begin(file).is_err() {
        return Err(Status::ReadFault);
    }
    match read_all(alloc, src, most) {
        Ok(bytes) => Ok(bytes),
        Err(ReadStop::Fault) => Err(Status::ReadFault),
        Err(ReadStop::TooLong) => Err(Status::TooLong),
        Err(ReadStop::Memory) => Err(Status::Memory),
    }
}
