//! The top call.

ghost use Rattle.std.specs.Prelude.{◌≡◌, ◌≢◌, ◌⊎◌, ◌↔◌, ◌<◌, ◌≤◌, [], drop, length, map, string_bytes, false, true, IfSome, Some, None};
ghost use Rattle.byte_ends.specs.Faults.{Rose};
ghost use Rattle.command_line.specs.Command.{is_usage, options_of};
ghost use Rattle.options.specs.declared.asked.Mode.TheVariants.{Prove, Check};
ghost use Rattle.beagle_top.specs.Answer.{Checks, Ends, EndsBy, IsDecidable, IsDecided, IsDueFor, IsSilent, IsStatus, IsCheckStatus, Proves, check_options, input_limit, is_make};
ghost use Rattle.beagle_top.specs.Meaning.{IsCheckable, IsVerified, WrittenChecks};
ghost use Rattle.beagle_top.specs.Asking.{MayAsk, MayAskFirst, first_of};
ghost use Rattle.beagle_top.specs.Texts.{not_built, usage};

use crate::answers::{check, proof};
use crate::laws::{decidable_is_decided, printed_checks, verified_where_proved};
use crate::statuses::{MEMORY, READ_FAULT, REFUSED, USAGE, WRITE_FAULT};
use crate::texts::{NOT_BUILT, TOO_LONG, USAGE_LINE};
use byte_ends::{ReadEnd, Sink, Source, put_all, read_all};
use command_line::{WordsFault, options_of};
use judge_base::Judge;
use options::limits::INPUT_LIMIT;
use options::{Mode, Options, default_options};
use std::alloc::Global;

/// How a run ended.
#[derive(Drop)]
pub struct Ended {
    /// The exit status.
    pub status: u8,
    /// The options that the words gave. None where they were refused, or where memory ran out while they were read.
    pub options: Option<Options>,
    /// The judges that the run was given as a list, in their order.
    pub judges: Vec<Box<dyn Judge + Send>>,
}

// Writes the text that goes with a status.
fn written<K: Sink>(sink: &mut K, status: u8, text: &[u8]) -> u8
    ensures ends { Ends status text.now (K.holds sink.old) (K.holds sink.new) result }
    ensures fault { (result ≡ status) ⊎ ((result ≡ 6) × Rose (K.faults sink.old) (K.faults sink.new)) }
    ensures faults { K.faults sink.old ≤ K.faults sink.new }
{
    match put_all(sink, text) {
        Ok(()) => status,
        Err(_) => WRITE_FAULT,
    }
}

// Answers bytes whose problem is to be proved.
fn proved_bytes<K: Sink>(
    alloc: Global,
    options: &Options,
    bytes: &[u8],
    sink: &mut K,
    judge: &mut dyn Judge,
) -> u8
    requires { length bytes.now ≤ input_limit }
    ensures status { IsStatus result }
    ensures ends { result ≢ 7 → EndsBy (Proves options.now bytes.now)
        (K.holds sink.old) (K.holds sink.new) (numbers judge.old) (numbers judge.new) result }
    ensures asked { MayAsk (numbers judge.old) (numbers judge.new) }
    ensures refused { result ≡ 3 → numbers judge.new ≡ numbers judge.old }
    ensures memory { result ≡ 7 → sink.new ≡ sink.old }
    ensures no_usage { result ≢ 4 }
    ensures no_refused_proof { result ≢ 8 }
    ensures no_read_fault { result ≢ 5 }
    ensures write_fault { result ≡ 6 → Rose (K.faults sink.old) (K.faults sink.new) }
    ensures faults { K.faults sink.old ≤ K.faults sink.new }
{
    match proof(alloc, options, bytes, judge) {
        Ok(answer) => written(sink, answer.status, answer.text.as_slice()),
        Err(_) => MEMORY,
    }
}

// Answers bytes of which the answer behind a problem is to be checked.
fn checked_bytes<K: Sink>(alloc: Global, bytes: &[u8], sink: &mut K) -> u8
    requires { length bytes.now ≤ input_limit }
    ensures status { IsCheckStatus result }
    ensures ends { result ≢ 7 → EndsBy (Checks bytes.now)
        (K.holds sink.old) (K.holds sink.new) [] [] result }
    ensures memory { result ≡ 7 → sink.new ≡ sink.old }
    ensures no_read_fault { result ≢ 5 }
    ensures write_fault { result ≡ 6 → Rose (K.faults sink.old) (K.faults sink.new) }
    ensures faults { K.faults sink.old ≤ K.faults sink.new }
{
    match check(alloc, bytes) {
        Ok(answer) => written(sink, answer.status, answer.text.as_slice()),
        Err(_) => MEMORY,
    }
}

// Reads a problem from the source, and writes the answer to it to the sink.
fn proved<S: Source, K: Sink>(
    alloc: Global,
    options: &Options,
    source: &mut S,
    sink: &mut K,
    judge: &mut dyn Judge,
) -> u8
    ensures status { IsStatus result }
    ensures no_usage { result ≢ 4 }
    ensures no_refused_proof { result ≢ 8 }
    ensures answer { (IsSilent result → ⊥) → IfSome (S.left source.old)
        (λ bytes. EndsBy (Proves options.now bytes) (K.holds sink.old) (K.holds sink.new)
        (numbers judge.old) (numbers judge.new) result) }
    ensures asked { MayAsk (numbers judge.old) (numbers judge.new) }
    ensures refused { (result ≡ 3) ⊎ (result ≡ 5) → numbers judge.new ≡ numbers judge.old }
    ensures read_fault { result ≡ 5 → Rose (S.faults source.old) (S.faults source.new) }
    ensures write_fault { result ≡ 6 → Rose (K.faults sink.old) (K.faults sink.new) }
    ensures silent { IsSilent result → sink.new ≡ sink.old }
    ensures source_faults { S.faults source.old ≤ S.faults source.new }
    ensures sink_faults { K.faults sink.old ≤ K.faults sink.new }
{
    match read_all(alloc, source, INPUT_LIMIT) {
        Ok(bytes) => proved_bytes(alloc, options, &bytes, sink, judge),
        Err(ReadEnd::TooLong) => written(sink, REFUSED, TOO_LONG.as_bytes()),
        Err(ReadEnd::Failed) => READ_FAULT,
        Err(ReadEnd::Memory) => MEMORY,
    }
}

// Reads a problem and the answer behind it from the source, and writes the answer of the check to the sink.
fn checked<S: Source, K: Sink>(alloc: Global, source: &mut S, sink: &mut K) -> u8
    ensures status { IsCheckStatus result }
    ensures answer { (IsSilent result → ⊥) → IfSome (S.left source.old)
        (λ bytes. EndsBy (Checks bytes) (K.holds sink.old) (K.holds sink.new) [] [] result) }
    ensures read_fault { result ≡ 5 → Rose (S.faults source.old) (S.faults source.new) }
    ensures write_fault { result ≡ 6 → Rose (K.faults sink.old) (K.faults sink.new) }
    ensures silent { IsSilent result → sink.new ≡ sink.old }
    ensures source_faults { S.faults source.old ≤ S.faults source.new }
    ensures sink_faults { K.faults sink.old ≤ K.faults sink.new }
{
    match read_all(alloc, source, INPUT_LIMIT) {
        Ok(bytes) => checked_bytes(alloc, &bytes, sink),
        Err(ReadEnd::TooLong) => written(sink, REFUSED, TOO_LONG.as_bytes()),
        Err(ReadEnd::Failed) => READ_FAULT,
        Err(ReadEnd::Memory) => MEMORY,
    }
}

/// Reads a problem and behind it what the program has written for it from the source, checks this without search, and writes what it
/// finds to the sink. The options of the end are the defaults, with the mode of a check, and it has no judges.
///
/// The problem ends before the first line that begins with `% SZS status ` or `% Saturated `. What is written is the refusal of an input of
/// more than `INPUT_LIMIT` bytes; else that of the first fault of the problem; else that of more than 100,000 clauses; else that of what
/// isn't built, a saturated list; else the first byte with which no text of a derivation with its status goes on, counted from the
/// start of the input, which is the input's length where no such line is there; else step 0, where the status isn't Theorem
/// exactly where the problem has a conjecture; else the first step that doesn't stand, or the number of steps where the
/// last clause isn't empty; else that the derivation is verified. The steps are replayed over the problem's clauses with the kind of variables
/// that the derivation itself names.
///
/// The status is `PROVED`, `PROOF_REFUSED` or `REFUSED` where the sink took the whole text; `READ_FAULT` where the source failed and
/// `MEMORY` where memory ran out, with nothing written; and `WRITE_FAULT` where the sink failed, with a prefix of the text
/// written.
pub fn check_bytes<S: Source, K: Sink>(alloc: Global, source: &mut S, sink: &mut K) -> Ended
    ensures status { IsCheckStatus result.status }
    ensures options { result.options ≡ Some check_options }
    ensures judges { result.judges.items ≡ [] }

    // What is due for the source's bytes is written.
    ensures answer { (IsSilent result.status → ⊥) → IfSome (S.left source.old)
        (λ bytes. EndsBy (Checks bytes) (K.holds sink.old) (K.holds sink.new) [] [] result.status) }

    // A derivation of falsehood from the problem's clauses is verified, and nothing else is.
    ensures verified { (IsSilent result.status → ⊥) → result.status ≢ 6 → IfSome (S.left source.old)
        (λ bytes. (result.status ≡ 0) ↔ IsVerified bytes) }

    // The faults of the ends, and want of memory.
    ensures read_fault { result.status ≡ 5 → Rose (S.faults source.old) (S.faults source.new) }
    ensures write_fault { result.status ≡ 6 → Rose (K.faults sink.old) (K.faults sink.new) }
    ensures silent { IsSilent result.status → sink.new ≡ sink.old }
    ensures source_faults { S.faults source.old ≤ S.faults source.new }
    ensures sink_faults { K.faults sink.old ≤ K.faults sink.new }
{
    verified_where_proved();
    Ended {
        status: checked(alloc, source, sink),
        options: Some(default_options(Mode::Check)),
        judges: Vec::new(alloc),
    }
}

/// Reads a problem from the source, proves it with one judge and writes the answer to the sink, whatever mode and number of workers
/// the options have. It asks the judge at most once. The options of the end are those that are given, and it has no judges.
///
/// What is written is the refusal of an input of more than `INPUT_LIMIT` bytes; else that of the first fault of the problem; else
/// that of more than 100,000 clauses; else that of what isn't built: a clause that isn't a background clause; else the derivation
/// of the first clause that is empty; else the line of the first operation that leaves the range where the pool of the clauses
/// is formed; else what the judge says of this pool, with Bulk up to `judge_steps`: the derivation that closes all clauses by a
/// certificate that stands, the list of all clauses with values at which they are true, or the line of the measure that is past its
/// limit.
///
/// The status is `PROVED`, `SATURATED`, `GAVE_UP` or `REFUSED` where the sink took the whole text; `READ_FAULT` where the source
/// failed and `MEMORY` where memory ran out, with nothing written; and `WRITE_FAULT` where the sink failed, with a prefix of
/// the text written.
///
/// A derivation that is written with `PROVED` is verified by `check_bytes` behind the bytes of its problem, where these are no bytes or end
/// with a newline, none of their lines begins with `% SZS status ` or `% Saturated `, and both together are at most `INPUT_LIMIT` bytes.
pub fn prove_alone<S: Source, K: Sink>(
    alloc: Global,
    options: &Options,
    source: &mut S,
    sink: &mut K,
    judge: &mut dyn Judge,
) -> Ended
    ensures status { IsStatus result.status }
    ensures no_usage { result.status ≢ 4 }
    ensures no_refused_proof { result.status ≢ 8 }
    ensures options { result.options ≡ Some options.now }
    ensures judges { result.judges.items ≡ [] }

    // What is due for the source's bytes is written, and the queries that it takes are asked.
    ensures answer { (IsSilent result.status → ⊥) → IfSome (S.left source.old)
        (λ bytes. EndsBy (Proves options.now bytes) (K.holds sink.old) (K.holds sink.new)
        ((⟦<dyn Judge as Judge>⟧ judge.old.0).numbers judge.old.1)
        ((⟦<dyn Judge as Judge>⟧ judge.new.0).numbers judge.new.1) result.status) }

    // Background clauses whose pool has its measures within their limits are decided, whatever the judge.
    ensures decided { (IsSilent result.status → ⊥) → result.status ≢ 6 → IfSome (S.left source.old)
        (λ bytes. IsDecidable options.now bytes → IsDecided result.status) }

    // A derivation that is written is verified by a check behind the bytes of its problem.
    ensures checks { result.status ≡ 0 → IfSome (S.left source.old)
        (λ bytes. IsCheckable bytes → WrittenChecks bytes (K.holds sink.old) (K.holds sink.new)) }

    // In every case the judge is asked at most once, with the query of number 0, and not after a refusal or a fault of the source.
    ensures asked { MayAsk ((⟦<dyn Judge as Judge>⟧ judge.old.0).numbers judge.old.1)
        ((⟦<dyn Judge as Judge>⟧ judge.new.0).numbers judge.new.1) }
    ensures refused { (result.status ≡ 3) ⊎ (result.status ≡ 5)
        → (⟦<dyn Judge as Judge>⟧ judge.new.0).numbers judge.new.1
        ≡ (⟦<dyn Judge as Judge>⟧ judge.old.0).numbers judge.old.1 }

    // The faults of the ends, and want of memory.
    ensures read_fault { result.status ≡ 5 → Rose (S.faults source.old) (S.faults source.new) }
    ensures write_fault { result.status ≡ 6 → Rose (K.faults sink.old) (K.faults sink.new) }
    ensures silent { IsSilent result.status → sink.new ≡ sink.old }
    ensures source_faults { S.faults source.old ≤ S.faults source.new }
    ensures sink_faults { K.faults sink.old ≤ K.faults sink.new }
{
    decidable_is_decided();
    printed_checks();
    Ended {
        status: proved(alloc, options, source, sink, judge),
        options: Some(*options),
        judges: Vec::new(alloc),
    }
}

// Proves with a judge in its box.
fn proved_by<S: Source, K: Sink>(
    alloc: Global,
    options: &Options,
    source: &mut S,
    sink: &mut K,
    judge: &mut Box<dyn Judge + Send>,
) -> u8
    ensures status { IsStatus result }
    ensures no_usage { result ≢ 4 }
    ensures no_refused_proof { result ≢ 8 }
    ensures answer { (IsSilent result → ⊥) → IfSome (S.left source.old)
        (λ bytes. EndsBy (Proves options.now bytes) (K.holds sink.old) (K.holds sink.new)
        (numbers judge.old) (numbers judge.new) result) }
    ensures asked { MayAsk (numbers judge.old) (numbers judge.new) }
    ensures refused { (result ≡ 3) ⊎ (result ≡ 5) → numbers judge.new ≡ numbers judge.old }
    ensures read_fault { result ≡ 5 → Rose (S.faults source.old) (S.faults source.new) }
    ensures write_fault { result ≡ 6 → Rose (K.faults sink.old) (K.faults sink.new) }
    ensures silent { IsSilent result → sink.new ≡ sink.old }
    ensures source_faults { S.faults source.old ≤ S.faults source.new }
    ensures sink_faults { K.faults sink.old ≤ K.faults sink.new }
{
    proved(alloc, options, source, sink, &mut **judge)
}

// Proves with the first of the judges.
fn proved_by_first<S: Source, K: Sink>(
    alloc: Global,
    options: &Options,
    source: &mut S,
    sink: &mut K,
    judges: &mut Vec<Box<dyn Judge + Send>>,
) -> u8
    requires { 0 < length judges.old.items }
    ensures status { IsStatus result }
    ensures no_usage { result ≢ 4 }
    ensures no_refused_proof { result ≢ 8 }
    ensures answer { (IsSilent result → ⊥) → IfSome (S.left source.old)
        (λ bytes. EndsBy (Proves options.now bytes) (K.holds sink.old) (K.holds sink.new)
        (first_of (map (λ j. numbers j) judges.old.items)) (first_of (map (λ j. numbers j) judges.new.items)) result) }
    ensures asked { MayAskFirst (map (λ j. numbers j) judges.old.items) (map (λ j. numbers j) judges.new.items) }
    ensures refused { (result ≡ 3) ⊎ (result ≡ 5)
        → map (λ j. numbers j) judges.new.items ≡ map (λ j. numbers j) judges.old.items }
    ensures others { drop 1 judges.new.items ≡ drop 1 judges.old.items }
    ensures read_fault { result ≡ 5 → Rose (S.faults source.old) (S.faults source.new) }
    ensures write_fault { result ≡ 6 → Rose (K.faults sink.old) (K.faults sink.new) }
    ensures silent { IsSilent result → sink.new ≡ sink.old }
    ensures source_faults { S.faults source.old ≤ S.faults source.new }
    ensures sink_faults { K.faults sink.old ≤ K.faults sink.new }
{
    proved_by(alloc, options, source, sink, &mut judges[0])
}

// Carries out the job; making a problem isn't built, and reads nothing.
fn run<S: Source, K: Sink>(
    alloc: Global,
    options: &Options,
    source: &mut S,
    sink: &mut K,
    judges: &mut Vec<Box<dyn Judge + Send>>,
) -> u8
    requires { 0 < length judges.old.items }
    ensures status { IsStatus result }
    ensures no_usage { result ≢ 4 }
    ensures refused_proof { result ≡ 8 → options.now.mode ≡ Check }
    ensures verified { options.now.mode ≡ Check → (IsSilent result → ⊥) → result ≢ 6 → IfSome (S.left source.old)
        (λ bytes. (result ≡ 0) ↔ IsVerified bytes) }
    ensures made { is_make options.now.mode ≡ true
        → Ends 3 not_built (K.holds sink.old) (K.holds sink.new) result }
    ensures unread { is_make options.now.mode ≡ true → source.new ≡ source.old }
    ensures answer { is_make options.now.mode ≡ false → (IsSilent result → ⊥)
        → IfSome (S.left source.old)
        (λ bytes. EndsBy (IsDueFor options.now bytes) (K.holds sink.old) (K.holds sink.new)
        (first_of (map (λ j. numbers j) judges.old.items)) (first_of (map (λ j. numbers j) judges.new.items)) result) }
    ensures unasked { options.now.mode ≢ Prove → judges.new ≡ judges.old }
    ensures asked { MayAskFirst (map (λ j. numbers j) judges.old.items) (map (λ j. numbers j) judges.new.items) }
    ensures refused { (result ≡ 3) ⊎ (result ≡ 5)
        → map (λ j. numbers j) judges.new.items ≡ map (λ j. numbers j) judges.old.items }
    ensures others { drop 1 judges.new.items ≡ drop 1 judges.old.items }
    ensures read_fault { result ≡ 5 → Rose (S.faults source.old) (S.faults source.new) }
    ensures write_fault { result ≡ 6 → Rose (K.faults sink.old) (K.faults sink.new) }
    ensures silent { IsSilent result → sink.new ≡ sink.old }
    ensures source_faults { S.faults source.old ≤ S.faults source.new }
    ensures sink_faults { K.faults sink.old ≤ K.faults sink.new }
{
    match options.mode {
        Mode::Make(_) => written(sink, REFUSED, NOT_BUILT.as_bytes()),
        Mode::Check => check_bytes(alloc, source, sink).status,
        Mode::Prove => proved_by_first(alloc, options, source, sink, judges),
    }
}

/// Reads a problem from the source and writes the answer to the sink, with the judges that are given.
///
/// The words are those of the command line without the program's name. Words that are refused are wrong usage, and the
/// source isn't read; neither is it where a problem is to be made, which isn't built. Otherwise the source is read to its
/// end. Where a problem is to be proved, what is written is that of `prove_alone` with the first judge; in a check it is that of
/// `check_bytes`.
///
/// The status is that of these calls, or `USAGE`. The judges are handed back in their order. The first one is asked at most once,
/// and the others never. A derivation that is written with `PROVED` is verified by a check behind its problem, as `prove_alone` says.
pub fn beagle<S: Source, K: Sink>(
    alloc: Global,
    words: &[String],
    source: &mut S,
    sink: &mut K,
    judges: Vec<Box<dyn Judge + Send>>,
) -> Ended
    requires { 0 < length judges.items }
    ensures status { IsStatus result.status }

    // Refused words are wrong usage, whatever the source has, and the source isn't read. Want of memory may come first.
    ensures usage { is_usage (map string_bytes words.now) ≡ true → result.status ≢ 7
        → Ends 4 usage (K.holds sink.old) (K.holds sink.new) result.status }
    ensures usage_only { result.status ≡ 4 → is_usage (map string_bytes words.now) ≡ true }
    ensures unread { is_usage (map string_bytes words.now) ≡ true → source.new ≡ source.old }

    // The options are those that the words give. None comes where the words were refused or not read to their end.
    ensures accepted { IfSome result.options (λ _. is_usage (map string_bytes words.now) ≡ false) }
    ensures options { IfSome result.options (λ o. o ≡ options_of (map string_bytes words.now)) }
    ensures no_options { result.options ≡ None
        → (result.status ≡ 7) ⊎ (is_usage (map string_bytes words.now) ≡ true) }
    ensures unread_without_options { result.options ≡ None → source.new ≡ source.old }

    // Making a problem isn't built, and reads nothing.
    ensures made { is_usage (map string_bytes words.now) ≡ false
        → is_make (options_of (map string_bytes words.now)).mode ≡ true → result.status ≢ 7
        → Ends 3 not_built (K.holds sink.old) (K.holds sink.new) result.status }
    ensures unread_make { is_make (options_of (map string_bytes words.now)).mode ≡ true
        → source.new ≡ source.old }

    // Otherwise what is due for the options and for the source's bytes is written, and the queries that it takes are asked.
    ensures answer { is_usage (map string_bytes words.now) ≡ false
        → is_make (options_of (map string_bytes words.now)).mode ≡ false
        → (IsSilent result.status → ⊥) → IfSome (S.left source.old)
        (λ bytes. EndsBy (IsDueFor (options_of (map string_bytes words.now)) bytes)
        (K.holds sink.old) (K.holds sink.new)
        (first_of (map (λ j. numbers j) judges.items)) (first_of (map (λ j. numbers j) result.judges.items)) result.status) }

    // Background clauses whose pool has its measures within their limits are decided, whatever the judges.
    ensures decided { is_usage (map string_bytes words.now) ≡ false
        → (options_of (map string_bytes words.now)).mode ≡ Prove
        → (IsSilent result.status → ⊥) → result.status ≢ 6 → IfSome (S.left source.old)
        (λ bytes. IsDecidable (options_of (map string_bytes words.now)) bytes → IsDecided result.status) }

    // A derivation that is written is verified by a check behind the bytes of its problem.
    ensures checks { is_usage (map string_bytes words.now) ≡ false
        → (options_of (map string_bytes words.now)).mode ≡ Prove
        → result.status ≡ 0 → IfSome (S.left source.old)
        (λ bytes. IsCheckable bytes → WrittenChecks bytes (K.holds sink.old) (K.holds sink.new)) }

    // In a check a derivation of falsehood from the problem's clauses is verified, and nothing else is. A derivation is refused in a
    // check alone.
    ensures verified { is_usage (map string_bytes words.now) ≡ false
        → (options_of (map string_bytes words.now)).mode ≡ Check
        → (IsSilent result.status → ⊥) → result.status ≢ 6 → IfSome (S.left source.old)
        (λ bytes. (result.status ≡ 0) ↔ IsVerified bytes) }
    ensures refused_proof { result.status ≡ 8
        → (is_usage (map string_bytes words.now) ≡ false)
        × ((options_of (map string_bytes words.now)).mode ≡ Check) }

    // The judges come back in their order. The first is asked at most once, the others never, and none after a refusal or a fault of
    // the source, where there are no options, or where nothing is to be proved.
    ensures asked { MayAskFirst (map (λ j. numbers j) judges.items) (map (λ j. numbers j) result.judges.items) }
    ensures refused { (result.status ≡ 3) ⊎ (result.status ≡ 5)
        → map (λ j. numbers j) result.judges.items ≡ map (λ j. numbers j) judges.items }
    ensures unasked_without_options { result.options ≡ None → result.judges ≡ judges }
    ensures others { drop 1 result.judges.items ≡ drop 1 judges.items }
    ensures unasked { (is_usage (map string_bytes words.now) ≡ true)
        ⊎ ((options_of (map string_bytes words.now)).mode ≢ Prove) → result.judges ≡ judges }

    // The faults of the ends, and want of memory.
    ensures read_fault { result.status ≡ 5 → Rose (S.faults source.old) (S.faults source.new) }
    ensures write_fault { result.status ≡ 6 → Rose (K.faults sink.old) (K.faults sink.new) }
    ensures silent { IsSilent result.status → sink.new ≡ sink.old }
    ensures source_faults { S.faults source.old ≤ S.faults source.new }
    ensures sink_faults { K.faults sink.old ≤ K.faults sink.new }
{
    decidable_is_decided();
    printed_checks();
    let mut judges = judges;
    match options_of(alloc, words) {
        Ok(options) => Ended {
            status: run(alloc, &options, source, sink, &mut judges),
            options: Some(options),
            judges,
        },
        Err(WordsFault::Usage) => Ended {
            status: written(sink, USAGE, USAGE_LINE.as_bytes()),
            options: None,
            judges,
        },
        Err(WordsFault::Memory) => Ended {
            status: MEMORY,
            options: None,
            judges,
        },
    }
}
