//! Where files are read.
ghost use Rattle.std.specs.Prelude.{◌≡◌, ◌≤◌, ◌<◌, ◌⊎◌, ◌↔◌, ℕ, List, [], length, min, take, Option, Some, None, Bool, true, false, is_ok, is_some, option_and_then, unwrap_or, Contains, IsTrue, IsOk, IsErr, IsNone, IfOk, IfSome, OnOk, OnErr};
ghost use Rattle.std.specs.Io.KnownBytes.{IsAtEnd};
ghost use Rattle.tlb_edge.specs.Causes.{HasCause, counted, counted_once, faults_after};
ghost use Rattle.tlb_edge.specs.Files.{Files, entries, bytes_at, file_at, reported_at};
ghost use Rattle.tlb_edge.specs.Left.{left_from};
ghost use Rattle.tlb_edge.specs.Moves.{Leaves, Reads, Gives};

/// A call of a shelf or a sink failed.
#[derive(Clone, Copy, Debug, PartialEq, Eq)]
pub struct Failed;

/// Files by name, of which one may be open.
pub trait Shelf {
    /// The bytes under each name, where reported.
    ghost held: { Self → Option Files };

    /// The unread bytes of the open file, where reported.
    ghost rest: { Self → Option (List ℕ) };

    /// Whether a file is open.
    ghost is_open: { Self → Bool };

    /// How many bytes were handed out since the last open, up to the last value of u64.
    ghost given: { Self → ℕ };

    /// How many calls of `open` there were, up to the last value of u64.
    ghost opens: { Self → ℕ };

    /// How many calls of `read` there were, where reported, up to the last value of u64.
    ghost reads: { Self → Option ℕ };

    /// How many calls have failed, up to the last value of u64.
    ghost faults: { Self → ℕ };

    /// Makes the named file the open one. After `Failed` no file is open.
    fn open(&mut self, name: &str) -> Result<(), Failed>
        ensures held { held self.new ≡ held self.old }
        ensures rest { OnOk result (Leaves (reported_at (held self.old) name.now) (rest self.new)) }
        ensures is_open { is_open self.new ≡ is_ok result }
        ensures nothing_left { OnErr result (IsAtEnd (rest self.new)) }
        ensures given { given self.new ≡ 0 }
        ensures opens { opens self.new ≡ counted (opens self.old) 1 }
        ensures reads { reads self.new ≡ reads self.old }
        ensures cause { HasCause (faults self.old) (faults self.new) result };

    /// Fills a prefix of the buffer, and answers how many bytes of it: 0 at the end and with no open
    /// file. After `Failed` the open file is as before.
    fn read(&mut self, buf: &mut [u8]) -> Result<usize, Failed>
        ensures held { held self.new ≡ held self.old }
        ensures bound { IfOk result (λ n. n ≤ length buf.new) }
        ensures rest { Reads (rest self.old) (rest self.new) result buf.new }
        ensures is_open { is_open self.new ≡ is_open self.old }
        ensures closed { is_open self.old ≡ false → IfOk result (λ n. n ≡ 0) }
        ensures at_end { rest self.old ≡ Some [] → IfOk result (λ n. n ≡ 0) }
        ensures given { Gives (given self.old) (given self.new) result }
        ensures opens { opens self.new ≡ opens self.old }
        ensures reads { reads self.new ≡ counted_once (reads self.old) }
        ensures cause { HasCause (faults self.old) (faults self.new) result };
}

/// Files in memory, whose calls fail by their numbers.
#[derive(Drop)]
pub struct MemShelf {
    files: Vec<(String, Vec<u8>)>,
    failing: Vec<u32>,
    calls: u64,
    current: Option<usize>,
    place: usize,
    given: u64,
    opens: u64,
    reads: u64,
    faults: u64,
}

impl MemShelf {
    ghost use Rattle.tlb_edge.specs.MemShelf.{held_by, some_open, left_of, given_of, opens_of, reads_of, faults_of, calls_of, failing_of};

    /// A shelf with these files, of which the first entry of a name counts. Its calls of `open` and
    /// `read` are numbered from 1, and one fails where its number is in `failing` or it opens a name
    /// that is not held.
    pub fn new(files: Vec<(String, Vec<u8>)>, failing: Vec<u32>) -> MemShelf
        ensures held { held_by result ≡ entries files.items }
        ensures failing { failing_of result ≡ failing.items }
        ensures closed { some_open result ≡ false }
        ensures rest { left_of result ≡ [] }
        ensures given { given_of result ≡ 0 }
        ensures opens { opens_of result ≡ 0 }
        ensures reads { reads_of result ≡ 0 }
        ensures faults { faults_of result ≡ 0 }
        ensures calls { calls_of result ≡ 0 }
    {
        MemShelf {
            files,
            failing,
            calls: 0,
            current: None,
            place: 0,
            given: 0,
            opens: 0,
            reads: 0,
            faults: 0,
        }
    }
}

impl Shelf for MemShelf {
    ghost use Rattle.tlb_edge.specs.MemShelf.{held_by, some_open, left_of, given_of, opens_of, reads_of, faults_of, calls_of, failing_of};

    ghost held = { λ s. Some (held_by s) };

    ghost rest = { λ s. Some (left_of s) };

    ghost is_open = { some_open };

    ghost given = { given_of };

    ghost opens = { opens_of };

    ghost reads = { λ s. Some (reads_of s) };

    ghost faults = { faults_of };

    fn open(&mut self, name: &str) -> Result<(), Failed>
        ensures held { held_by self.new ≡ held_by self.old }
        ensures rest { OnOk result (file_at (held_by self.old) name.now ≡ Some (left_of self.new)) }
        ensures is_open { some_open self.new ≡ is_ok result }
        ensures nothing_left { OnErr result (left_of self.new ≡ []) }
        ensures given { given_of self.new ≡ 0 }
        ensures opens { opens_of self.new ≡ counted (opens_of self.old) 1 }
        ensures reads { reads_of self.new ≡ reads_of self.old }
        ensures cause { HasCause (faults_of self.old) (faults_of self.new) result }

        ensures fails { IsErr result
            ↔ (Contains (failing_of self.old) (calls_of self.new)
            ⊎ IsNone (file_at (held_by self.old) name.now)) }
        ensures faults { faults_of self.new ≡ faults_after (faults_of self.old) result }
        ensures calls { calls_of self.new ≡ counted (calls_of self.old) 1 }
        ensures failing { failing_of self.new ≡ failing_of self.old }
    {
        self.calls = self.calls.saturating_add(1);
        self.opens = self.opens.saturating_add(1);
        self.given = 0;
        self.place = 0;
        self.current = find(&self.files, name);
        if self.current.is_none() || is_listed(&self.failing, self.calls) {
            self.current = None;
            self.faults = self.faults.saturating_add(1);
            return Err(Failed);
        }
        Ok(())
    }

    fn read(&mut self, buf: &mut [u8]) -> Result<usize, Failed>
        ensures held { held_by self.new ≡ held_by self.old }
        ensures bound { IfOk result (λ n. n ≤ length buf.new) }
        ensures rest { Reads (Some (left_of self.old)) (Some (left_of self.new)) result buf.new }
        ensures is_open { some_open self.new ≡ some_open self.old }
        ensures closed { some_open self.old ≡ false → IfOk result (λ n. n ≡ 0) }
        ensures given { Gives (given_of self.old) (given_of self.new) result }
        ensures opens { opens_of self.new ≡ opens_of self.old }
        ensures reads { reads_of self.new ≡ counted (reads_of self.old) 1 }
        ensures cause { HasCause (faults_of self.old) (faults_of self.new) result }

        ensures fails { IsErr result ↔ Contains (failing_of self.old) (calls_of self.new) }
        ensures count { IfOk result (λ n. n ≡ min (length buf.new) (length (left_of self.old))) }
        ensures faults { faults_of self.new ≡ faults_after (faults_of self.old) result }
        ensures calls { calls_of self.new ≡ counted (calls_of self.old) 1 }
        ensures failing { failing_of self.new ≡ failing_of self.old }
    {
        self.calls = self.calls.saturating_add(1);
        self.reads = self.reads.saturating_add(1);
        if is_listed(&self.failing, self.calls) {
            self.faults = self.faults.saturating_add(1);
            return Err(Failed);
        }
        let count = fill(buf, left_of_entry(&self.files, self.current, self.place));
        self.place += count;
        self.given = self.given.saturating_add(count as u64);
        Ok(count)
    }
}

/// Files in memory that never fail. A name that is not held opens as an empty file.
#[derive(Drop)]
pub struct SureShelf {
    files: Vec<(String, Vec<u8>)>,
    current: Option<usize>,
    place: usize,
    given: u64,
    opens: u64,
    reads: u64,
}

impl SureShelf {
    ghost use Rattle.tlb_edge.specs.SureShelf.{held_by, some_open, left_of, given_of, opens_of, reads_of};

    /// A shelf with these files, of which the first entry of a name counts.
    pub fn new(files: Vec<(String, Vec<u8>)>) -> SureShelf
        ensures held { held_by result ≡ entries files.items }
        ensures closed { some_open result ≡ false }
        ensures rest { left_of result ≡ [] }
        ensures given { given_of result ≡ 0 }
        ensures opens { opens_of result ≡ 0 }
        ensures reads { reads_of result ≡ 0 }
    {
        SureShelf {
            files,
            current: None,
            place: 0,
            given: 0,
            opens: 0,
            reads: 0,
        }
    }
}

impl Shelf for SureShelf {
    ghost use Rattle.tlb_edge.specs.SureShelf.{held_by, some_open, left_of, given_of, opens_of, reads_of};

    ghost held = { λ s. Some (held_by s) };

    ghost rest = { λ s. Some (left_of s) };

    ghost is_open = { some_open };

    ghost given = { given_of };

    ghost opens = { opens_of };

    ghost reads = { λ s. Some (reads_of s) };

    ghost faults = { λ _. 0 };

    fn open(&mut self, name: &str) -> Result<(), Failed>
        ensures ok { IsOk result }
        ensures held { held_by self.new ≡ held_by self.old }
        ensures rest { left_of self.new ≡ unwrap_or (file_at (held_by self.old) name.now) [] }
        ensures is_open { some_open self.new ≡ true }
        ensures given { given_of self.new ≡ 0 }
        ensures opens { opens_of self.new ≡ counted (opens_of self.old) 1 }
        ensures reads { reads_of self.new ≡ reads_of self.old }
    {
        self.opens = self.opens.saturating_add(1);
        self.given = 0;
        self.place = 0;
        // After the last entry an empty file is open.
        self.current = match find(&self.files, name) {
            Some(index) => Some(index),
            None => Some(self.files.len()),
        };
        Ok(())
    }

    fn read(&mut self, buf: &mut [u8]) -> Result<usize, Failed>
        ensures ok { IsOk result }
        ensures held { held_by self.new ≡ held_by self.old }
        ensures rest { Reads (Some (left_of self.old)) (Some (left_of self.new)) result buf.new }
        ensures count { IfOk result (λ n. n ≡ min (length buf.new) (length (left_of self.old))) }
        ensures is_open { some_open self.new ≡ some_open self.old }
        ensures given { Gives (given_of self.old) (given_of self.new) result }
        ensures opens { opens_of self.new ≡ opens_of self.old }
        ensures reads { reads_of self.new ≡ counted (reads_of self.old) 1 }
    {
        self.reads = self.reads.saturating_add(1);
        let count = fill(buf, left_of_entry(&self.files, self.current, self.place));
        self.place += count;
        self.given = self.given.saturating_add(count as u64);
        Ok(count)
    }
}

// Where the first entry of this name stands.
fn find(files: &[(String, Vec<u8>)], name: &str) -> Option<usize>
    ensures found { file_at (entries files.now) name.now
        ≡ option_and_then (λ i. bytes_at files.now i) result }
    ensures within { IfSome result (λ i. i < length files.now) }
{
    for (i, file) in files.iter().enumerate() {
        if file.0.as_str() == name {
            return Some(i);
        }
    }
    None
}

// What is left of an entry from a place on.
fn left_of_entry(files: &[(String, Vec<u8>)], current: Option<usize>, place: usize) -> &[u8]
    ensures { result.now ≡ left_from files.now place current }
{
    let Some(index) = current else {
        return &[];
    };
    let Some(file) = files.get(index) else {
        return &[];
    };
    let bytes = file.1.as_slice();
    if place < bytes.len() {
        &bytes[place..]
    } else {
        &[]
    }
}

// Whether a call's number is among those that fail.
pub(crate) fn is_listed(failing: &[u32], number: u64) -> bool
    ensures { IsTrue result ↔ Contains failing.now number }
{
    failing.iter().any(|listed| u64::from(*listed) == number)
}

// Copies a prefix of what is left into the buffer, as much as there is room for.
fn fill(buf: &mut [u8], left: &[u8]) -> usize
    ensures count { result ≡ min (length buf.old) (length left.now) }
    ensures prefix { take result buf.new ≡ take result left.now }
{
    let count = buf.len().min(left.len());
    buf[..count].copy_from_slice(&left[..count]);
    count
}
