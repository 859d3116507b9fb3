// Where the records of a block's rows go: into records, or into bytes, of which each record takes two. One list is lent, and the
// items of it say how a record is put.
ghost use Rattle.std.specs.Prelude.{◌≡◌, List, ◌++◌, ℕ, ◌+◌, ◌*◌, ◌/◌, ◌<◌, length, drop, set};
ghost use Rattle.answers.specs.declared.Record.{Record};
ghost use Rattle.lists.specs.Tables.{tab};
ghost use Rattle.lists.proofs.Filled.{fill_none, fill-next};
ghost use Rattle.verifying.specs.AsBytes.{record_bytes};
ghost use Rattle.verifying.specs.Stores.{put_bytes, records-kept, bytes-kept, bytes_none, bytes_next};

use answers::Record;

pub trait Stored {
    // For how many records a list has room.
    ghost room: { List Self → ℕ };

    // The list after a record is put in place r.
    ghost put: { List Self → ℕ → Record → List Self };

    // The list whose first n records are f 0, f 1, .., and the items behind them as they were.
    ghost filled: { ℕ → (ℕ → Record) → List Self → List Self };

    fn room(records: &[Self]) -> usize
        ensures { result ≡ room records.now };

    fn put(records: &mut [Self], r: usize, outcome: Record)
        requires { r < room records.old }
        ensures { records.new ≡ put records.old r outcome };

    // A record that is put leaves the room as it was,
    ghost kept: { (l : List Self) (r : ℕ) (x : Record) → room (put l r x) ≡ room l };

    // no record leaves the list as it was,
    ghost none: { (f : ℕ → Record) (l : List Self) → filled 0 f l ≡ l };

    // and one record more is one that is put.
    ghost next: { (f : ℕ → Record) (n : ℕ) (l : List Self) → n < room l → put (filled n f l) n (f n) ≡ filled (n + 1) f l };
}

impl Stored for Record {
    ghost room = { length };

    ghost put = { set };

    ghost filled = { λ n f l. tab n f ++ drop n l };

    ghost kept = { records-kept };

    ghost none = { fill_none };

    ghost next = { fill-next };

    fn room(records: &[Record]) -> usize {
        records.len()
    }

    fn put(records: &mut [Record], r: usize, outcome: Record) {
        records[r] = outcome;
    }
}

impl Stored for u8 {
    ghost room = { λ l. length l / 2 };

    ghost put = { put_bytes };

    ghost filled = { λ n f l. record_bytes (tab n f) ++ drop (2 * n) l };

    ghost kept = { bytes-kept };

    ghost none = { bytes_none };

    ghost next = { bytes_next };

    fn room(records: &[u8]) -> usize {
        records.len() / 2
    }

    fn put(records: &mut [u8], r: usize, outcome: Record) {
        records[2 * r] = outcome.state;
        records[2 * r + 1] = outcome.count;
    }
}
