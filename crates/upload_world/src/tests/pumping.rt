// A worker's pump over a book of its own.
ghost use Rattle.std.specs.Prelude.{◌≡◌, None, IfOk};
ghost use Rattle.link_deliveries.specs.Waiting.{refusals};

use super::column;
use crate::{Book, Uploader, Uploads, WorkFault, pump};
use book_journal::{ApplyFault, Journal};
use column_book::ROOM;
use lg_base::{Gate, OpenGate};
use lg_disk::MemoryDisk;
use lg_model::{Hash, Letter, Shape};
use shared_book::{Pass, SharedBook, share};
use sketchlet_wire::Upload;
use std::alloc::Global;
use std::sync::Wait;
use std::sync::atomic::{AtomicU64, Ordering};
use std::test::Fail;
use upload_frame::write_upload;
use uploader_core::are_own;

// The uploads of a host: one column each, at that index, with that many bytes.
pub(super) fn uploads(
    alloc: Global,
    host: u16,
    columns: &[(u16, u32)],
) -> Result<Vec<Upload>, Fail> {
    let mut all = Vec::new(alloc);
    let mut seq = 0u32;
    for (index, bytes) in columns {
        let column = [column(0, *index, *bytes).ok_or("no column")?].to_vec(alloc)?;
        all.push(Upload::new(host, seq, column).ok().ok_or("no upload")?)?;
        seq = seq.saturating_add(1);
    }
    Ok(all)
}

pub(super) fn uploader(alloc: Global, host: u16, uploads: Vec<Upload>) -> Result<Uploader, Fail>
    ensures { IfOk result (λ u. refusals u.states ≡ 0) }
{
    if !are_own(host, &uploads) {
        return Err("no uploads of that host".into());
    }
    Ok(Uploader::new(alloc, host, uploads)?)
}

// What came of a pump: its answer, how many calls it took, and the book.
pub(super) type Told = (Result<(), WorkFault>, u32, Book);

pub(super) fn journal(alloc: Global, stop: Option<u32>) -> Result<Journal<MemoryDisk>, Fail>
    ensures { IfOk result (λ j. j.fault ≡ None) }
{
    let shape = Shape::new(2, super::WIDTH, Hash::Ports).ok_or("no shape")?;
    let mut disk = MemoryDisk::new(alloc, Vec::new(alloc))?;
    if let Some(k) = stop {
        disk.stop_after(k);
    }
    let Ok(journal) = Journal::open(alloc, disk, &shape, ROOM) else {
        return Err("not opened".into());
    };
    Ok(journal)
}

// Pumps an uploader's uploads into an empty book.
pub(super) fn run<U: Uploads, G: Gate, R: Wait>(
    rt: &R,
    alloc: Global,
    uploader: &mut Uploader<U>,
    letters: &[Letter],
    gate: &G,
) -> Result<Told, Fail>
    requires none { refusals uploader.old.states ≡ 0 }
{
    if uploader.len() > 1000 || letters.len() > 1000 {
        return Err("too many".into());
    }
    let Ok((book, mut pass)) = share(alloc, journal(alloc, None)?) else {
        return Err("not shared".into());
    };
    let result = pump(alloc, rt, &book, &mut pass, uploader, letters, gate);
    let calls = u32::MAX - pass.left();
    let (kept, _disk) = book.close(pass).close();
    Ok((result, calls, kept))
}

// ---- the order of a link

// Numbers of uploads, one digit each, as one number with digits from 1.
pub(super) fn digits(seqs: &str) -> u64 {
    let mut number = 0u64;
    for digit in seqs.as_bytes() {
        number = after(number, u32::from(*digit).wrapping_sub(48));
    }
    number
}

pub(super) fn after(number: u64, seq: u32) -> u64 {
    number
        .wrapping_mul(10)
        .wrapping_add(u64::from(seq))
        .wrapping_add(1)
}

// The uploads of the entries, in order.
pub(super) fn stored(book: &Book) -> u64 {
    let mut number = 0;
    for at in 0..book.records() {
        number = after(number, book.head(at).seq);
    }
    number
}

fn letter(name: u8) -> Letter {
    match name {
        b'x' => Letter::Lose,
        b'a' => Letter::LoseReply,
        b'r' => Letter::Twice,
        b'h' => Letter::Hold,
        _ => Letter::Deliver,
    }
}

fn letters(alloc: Global, names: &str) -> Result<Vec<Letter>, Fail> {
    let mut all = Vec::new(alloc);
    for name in names.as_bytes() {
        all.push(letter(*name))?;
    }
    Ok(all)
}

// A gate that compares each frame with that of its upload, of host 1, and keeps the numbers of the uploads in order.
#[derive(Drop)]
pub(super) struct Watch {
    frames: Vec<Vec<u8>>,
    pub(super) sends: AtomicU64,
    pub(super) others: AtomicU64,
}

impl Gate for Watch {
    fn pass(&self, host: u16, seq: u32, frame: &[u8]) {
        match self.frames.get(seq as usize) {
            Some(own) if host == 1 && own.as_slice() == frame => {
                let sends = self.sends.load(Ordering::SeqCst);
                self.sends.store(after(sends, seq), Ordering::SeqCst);
            }
            _ => {
                self.others.fetch_add(1, Ordering::SeqCst);
            }
        }
    }
}

pub(super) fn watching(alloc: Global, uploads: &[Upload]) -> Result<Watch, Fail> {
    let mut frames = Vec::new(alloc);
    for upload in uploads {
        frames.push(write_upload(alloc, upload)?)?;
    }
    Ok(Watch {
        frames,
        sends: AtomicU64::new(0),
        others: AtomicU64::new(0),
    })
}

const EQUAL: [(u16, u32); 4] = [(0, 5), (0, 5), (0, 5), (0, 5)];

pub(super) const OTHERS: [(u16, u32); 4] = [(0, 5), (1, 5), (2, 5), (3, 5)];

// How many calls a pump takes, the uploads of the entries, and the uploads that were sent, whose frames the gate saw.
fn follow<R: Wait>(
    rt: &R,
    alloc: Global,
    columns: &[(u16, u32)],
    names: &str,
) -> Result<(u32, u64, u64), Fail> {
    let uploads = uploads(alloc, 1, columns)?;
    let gate = watching(alloc, &uploads)?;
    let mut uploader = uploader(alloc, 1, uploads)?;
    let letters = letters(alloc, names)?;
    let (result, made, book) = run(rt, alloc, &mut uploader, &letters, &gate)?;
    if result != Ok(()) || !uploader.done() || gate.others.load(Ordering::SeqCst) != 0 {
        return Err("stopped, or another frame".into());
    }
    Ok((made, stored(&book), gate.sends.load(Ordering::SeqCst)))
}

#[test]
fn letters_and_what_comes_of_them(rt: HostRuntime) -> Result<(), Fail> {
    // the columns, the letters, the calls, the uploads of the entries, and the uploads that were sent
    let rows = [
        (EQUAL, "xarh", 6, "1", "012301"),
        (OTHERS, "xarh", 6, "1230", "012301"),
        (OTHERS, "", 4, "0123", "0123"),
        (OTHERS, "xxxx", 4, "0123", "01230123"),
        (OTHERS, "aaaa", 8, "0123", "01230123"),
        (OTHERS, "rrrr", 8, "0123", "0123"),
        (OTHERS, "hhhh", 4, "0123", "0123"),
        (OTHERS, "hxa", 5, "2031", "012312"),
    ];
    for (columns, names, calls, entries, sends) in rows {
        let told = follow(&rt, rt.alloc(), &columns, names)?;
        assert_eq!(rt; told, (calls, digits(entries), digits(sends)), "{names}");
    }
    Ok(())
}

// How often a letter brings its upload at once, how often later, and whether it is acknowledged then.
fn comes(letter: Letter) -> (u32, u32, bool) {
    match letter {
        Letter::Deliver => (1, 0, true),
        Letter::Lose => (0, 0, false),
        Letter::LoseReply => (1, 0, false),
        Letter::Twice => (2, 0, true),
        Letter::Hold => (0, 1, true),
    }
}

// The deliveries of two uploads, in order: in each round all that comes at once comes before what comes later.
fn two_deliver(letters: &[Letter]) -> u64 {
    let mut all = 0;
    let mut acked = [false; 2];
    let mut at = 0usize;
    for _ in 0..6 {
        let mut late = [0; 2];
        for seq in 0..2 {
            if !acked[seq] {
                let letter = letters.get(at).copied().unwrap_or(Letter::Deliver);
                at = at.saturating_add(1);
                let (once, later, heard) = comes(letter);
                for _ in 0..once {
                    all = after(all, seq as u32);
                }
                late[seq] = later;
                acked[seq] = heard;
            }
        }
        for seq in 0..2 {
            for _ in 0..late[seq] {
                all = after(all, seq as u32);
            }
        }
    }
    all
}

// How many digits there are, and which come first, each once.
fn count_and_first(number: u64) -> (u32, u64) {
    let mut count = 0u32;
    let mut last = 0;
    let mut rest = number;
    for _ in 0..20 {
        if rest > 0 {
            count = count.saturating_add(1);
            last = rest % 10;
            rest /= 10;
        }
    }
    (count, if last == 1 { 12 } else { 21 })
}

const ALL: [Letter; 5] = [
    Letter::Deliver,
    Letter::Lose,
    Letter::LoseReply,
    Letter::Twice,
    Letter::Hold,
];

#[test]
fn each_list_of_four_letters_over_two_uploads(rt: HostRuntime) -> Result<(), Fail> {
    let alloc = rt.alloc();
    let mut cases = 0u32;
    for len in 0..5usize {
        for code in 0..5usize.saturating_pow(len as u32) {
            let all = [
                ALL[code % 5],
                ALL[code / 5 % 5],
                ALL[code / 25 % 5],
                ALL[code / 125 % 5],
            ];
            let letters = &all[..len];
            let mut uploader = uploader(alloc, 1, uploads(alloc, 1, &OTHERS[..2])?)?;
            let (result, made, book) = run(&rt, alloc, &mut uploader, letters, &OpenGate)?;
            let want = count_and_first(two_deliver(letters));
            assert_eq!(rt; (result, uploader.done()), (Ok(()), true), "{letters:?}");
            assert_eq!(rt; (made, stored(&book)), want, "{letters:?}");
            cases = cases.saturating_add(1);
        }
    }
    assert_eq!(rt; cases, 781);
    Ok(())
}

// ---- why a pump stops

#[test]
fn a_conflict_stops_at_the_third_upload(rt: HostRuntime) -> Result<(), Fail> {
    let alloc = rt.alloc();
    let columns = [(0, 5), (1, 5), (0, 6), (3, 5)];
    let mut uploader = uploader(alloc, 1, uploads(alloc, 1, &columns)?)?;
    let (result, made, book) = run(&rt, alloc, &mut uploader, &[], &OpenGate)?;
    let conflict = matches!(
        result,
        Err(WorkFault::Refused {
            seq: 2,
            fault: ApplyFault::Conflict { .. }
        })
    );
    assert_eq!(rt; (conflict, made, stored(&book)), (true, 3, digits("01")));
    if uploader.len() != 4 {
        return Err("not four uploads".into());
    }
    assert_eq!(rt;
        [
            uploader.acked(0),
            uploader.acked(1),
            uploader.acked(2),
            uploader.acked(3)
        ],
        [true, true, false, false]
    );
    Ok(())
}

// One pump more with a pass, where enough calls are left.
fn again<R: Wait>(
    rt: &R,
    alloc: Global,
    book: &SharedBook<MemoryDisk>,
    pass: &mut Pass,
    uploader: &mut Uploader,
) -> Result<(), WorkFault>
    requires book { pass.old.book ≡ book.now.id }
    requires none { refusals uploader.old.states ≡ 0 }
    ensures book { pass.new.book ≡ pass.old.book }
    ensures number { pass.new.view.number ≡ pass.old.view.number }
    ensures made { pass.new.view.made ≡ pass.old.view.made }
    ensures joined { pass.new.view.joined ≡ pass.old.view.joined }
{
    if uploader.len() > 1000 || pass.left() < 10_000 {
        return Ok(());
    }
    let letters = [Letter::LoseReply];
    pump(alloc, rt, book, pass, uploader, &letters, &OpenGate)
}

// What two pumps with one pass come to, over a disk that stops once the empty book is there.
fn run_twice<R: Wait>(
    rt: &R,
    alloc: Global,
    first: &mut Uploader,
    second: &mut Uploader,
) -> Result<[Result<(), WorkFault>; 2], Fail>
    requires first { refusals first.old.states ≡ 0 }
    requires second { refusals second.old.states ≡ 0 }
{
    if first.len() > 1000 {
        return Err("too many".into());
    }
    let Ok((book, mut pass)) = share(alloc, journal(alloc, Some(10))?) else {
        return Err("not shared".into());
    };
    let one = pump(alloc, rt, &book, &mut pass, first, &[], &OpenGate);
    let two = again(rt, alloc, &book, &mut pass, second);
    book.close(pass);
    Ok([one, two])
}

#[test]
fn a_pass_with_the_mark_is_refused(rt: HostRuntime) -> Result<(), Fail> {
    let alloc = rt.alloc();
    let mut first = uploader(alloc, 1, uploads(alloc, 1, &OTHERS)?)?;
    let mut second = uploader(alloc, 2, uploads(alloc, 2, &OTHERS)?)?;
    let told = run_twice(&rt, alloc, &mut first, &mut second)?;
    let want = [
        Err(WorkFault::Refused {
            seq: 0,
            fault: ApplyFault::DiskFault,
        }),
        Err(WorkFault::Refused {
            seq: 0,
            fault: ApplyFault::Broken { records: 0 },
        }),
    ];
    assert_eq!(rt; told, want);
    Ok(())
}
