//! One thread that loads a word of page 1 and stores it behind.

ghost use Rattle.std.specs.Prelude.{◌≡◌, IfOk, OnOk, IsTrue, IsSomeAnd, slice_get};
ghost use Rattle.mind_base.specs.Fit.{IsFit};
ghost use Rattle.compute_blade_rows.specs.Ready.{IsReady};

use compute_blade::ComputeBlade;
use mind_base::{Image, Log, NoMemory, Note, Page, Perm, RackPlan, Range, Stop};
use page_image::PageImage;
use sample_racks::{images_in, plan_in};
use std::alloc::Global;
use std::test::Fail;
use wire_msg::Msg;

/// Two blades of two frames, the homes of 32 pages of domain 0, pages 1 and 2 mapped, and one thread with a
/// queue of two places.
const RACK: &str =
    "format = 1\nslots = 4\nprotect = 8\noutliers = 2\nregion = 0\nmost = 9\nthreshold = 0\nblade = [{ frames = 2 }, { frames = 2 }]\nmemory = [{ spare = 4, homes = [{ domain = 0, page = 0, pages = 16 }] }, { spare = 4, homes = [{ domain = 0, page = 16, pages = 16 }] }]\nimage = [{ name = \"a.bin\", at = 0 }]\nthread = [{ blade = 0, domain = 0, image = 0, queue = 2 }]\nmap = [{ domain = 0, page = 1, pages = 2, perm = \"rw\" }]\n";

// lui x5, 1; lw a0, 0(x5); sw a0, 4(x5)
static PROGRAM: [u8; 12] = [
    0xb7, 0x12, 0x00, 0x00, 0x03, 0xa5, 0x02, 0x00, 0x23, 0xa2, 0xa2, 0x00,
];

// the same, and then lui x6, 2; lw a1, 0(x6)
static LONGER: [u8; 20] = [
    0xb7, 0x12, 0x00, 0x00, 0x03, 0xa5, 0x02, 0x00, 0x23, 0xa2, 0xa2, 0x00, 0x37, 0x23, 0x00, 0x00,
    0x83, 0x25, 0x03, 0x00,
];

/// What happens to the blade. Pages are of domain 0; a page that comes may be read and written.
#[derive(Clone, Copy)]
enum Act {
    Step,
    Drain,
    Evict {
        page: u32,
    },
    Fill {
        page: u32,
        writable: bool,
        word: u32,
    },
    Deny {
        page: u32,
    },
    Inv {
        number: u32,
        asked: u32,
    },
    Lower {
        number: u32,
        asked: u32,
    },
}

/// What the blade sends: page 1 goes back with two words at its start, a tag, and zeros.
#[derive(Clone, Copy)]
enum Sent {
    Nothing,
    Get { page: u32, write: bool },
    Back { first: u32, second: u32, tag: u64 },
    Ack { number: u32, count: u32 },
}

/// A blade with the images of its plan, and the notes so far.
#[derive(Drop)]
struct Bench {
    alloc: Global,
    blade: ComputeBlade,
    images: Vec<Image>,
    log: Log,
}

/// Whether the first thread is blade 0's.
fn is_own(plan: &RackPlan) -> bool
    ensures { IsTrue result → IsSomeAnd (slice_get plan.now.threads 0) (λ thread. thread.blade ≡ 0) }
{
    match plan.threads.as_slice().first() {
        None => false,
        Some(thread) => thread.blade == 0,
    }
}

/// A new bench of the plan, whose thread runs this program.
#[tactic(auto, using(crate::proofs::Samples::starts_ready))]
fn bench_of(alloc: Global, plan: &RackPlan, program: &[u8]) -> Result<Bench, Fail>
    requires { IsFit plan.now }
    ensures { IfOk result (λ bench. IsReady bench.blade bench.images.items) }
{
    if !is_own(plan) {
        return Err(Fail::from("another plan"));
    }
    let images = images_in(alloc, plan.images.as_slice(), &[program])?;
    let blade = ComputeBlade::new(alloc, plan, 0)?;
    Ok(Bench {
        alloc,
        blade,
        images,
        log: Log::new(alloc),
    })
}

/// A new bench of the rack, whose thread runs this program.
fn new_bench(alloc: Global, program: &[u8]) -> Result<Bench, Fail>
    ensures { IfOk result (λ bench. IsReady bench.blade bench.images.items) }
{
    let plan = plan_in(alloc, RACK)?;
    bench_of(alloc, &plan, program)
}

/// The first four pages of domain 0.
const FOUR: Range = Range {
    domain: 0,
    base: 0,
    log: 2,
};

impl Bench {
    #[tactic(auto, using(crate::proofs::Samples::stays_ready))]
    fn act(&mut self, act: Act, out: &mut Vec<Msg>) -> Result<(), Stop>
        requires { IsReady self.old.blade self.old.images.items }
        ensures { OnOk result (IsReady self.new.blade self.new.images.items) }
    {
        match act {
            Act::Step => self
                .blade
                .step(0, self.images.as_slice(), out, &mut self.log)?,
            Act::Drain => self.blade.drain(0, out, &mut self.log)?,
            Act::Evict { page } => self.blade.evict(page_of(page), out, &mut self.log)?,
            _ => self.receive(act, out)?,
        }
        Ok(())
    }

    #[tactic(auto, using(crate::proofs::Samples::stays_ready))]
    /// Hands the blade a message; one that may not come to it is answered by what no row has.
    fn receive(&mut self, act: Act, out: &mut Vec<Msg>) -> Result<(), Stop>
        requires { IsReady self.old.blade self.old.images.items }
        ensures { OnOk result (IsReady self.new.blade self.new.images.items) }
    {
        let msg = message_of(self.alloc, act)?;
        if !self.blade.may_receive(&msg) {
            out.push(Msg::Closed { number: 0 })?;
            return Ok(());
        }
        let images = self.images.as_slice();
        self.blade.receive(msg, images, out, &mut self.log)?;
        Ok(())
    }

    /// Whether the act sends these messages.
    fn sends(&mut self, act: Act, first: Sent, second: Sent) -> Result<bool, Stop>
        requires { IsReady self.old.blade self.old.images.items }
        ensures { OnOk result (IsReady self.new.blade self.new.images.items) }
    {
        let mut out = Vec::new(self.alloc);
        self.act(act, &mut out)?;
        Ok(out.len() <= 2 && is_at(out.as_slice(), 0, first) && is_at(out.as_slice(), 1, second))
    }

    /// The number of the first row that does not send what it says; None where there is none.
    fn first_other(&mut self, rows: &[(Act, Sent, Sent)]) -> Result<Option<usize>, Stop>
        requires { IsReady self.old.blade self.old.images.items }
        ensures { OnOk result (IsReady self.new.blade self.new.images.items) }
    {
        for (i, (act, first, second)) in rows.iter().enumerate() {
            if !self.sends(*act, *first, *second)? {
                return Ok(Some(i));
            }
        }
        Ok(None)
    }
}

fn page_of(number: u32) -> Page {
    Page {
        domain: 0,
        number: number % 1024,
    }
}

fn message_of(alloc: Global, act: Act) -> Result<Msg, NoMemory> {
    match act {
        Act::Fill {
            page,
            writable,
            word,
        } => fill(alloc, page, writable, word),
        Act::Inv { number, asked } => Ok(Msg::Inv {
            number,
            range: FOUR,
            asked: Some(page_of(asked)),
        }),
        Act::Lower { number, asked } => Ok(Msg::Lower {
            number,
            range: FOUR,
            asked: page_of(asked),
        }),
        Act::Deny { page } => Ok(Msg::Deny {
            page: page_of(page),
        }),
        _ => Ok(Msg::Closed { number: 0 }),
    }
}

/// The page comes with this word at its start.
fn fill(alloc: Global, page: u32, writable: bool, word: u32) -> Result<Msg, NoMemory> {
    let mut image = PageImage::zero(alloc)?;
    image.store(0, 4, word, 0);
    Ok(Msg::Fill {
        page: page_of(page),
        perm: Perm::Rw,
        writable,
        image,
    })
}

fn is_at(msgs: &[Msg], i: usize, wanted: Sent) -> bool {
    match msgs.get(i) {
        None => matches!(wanted, Sent::Nothing),
        Some(msg) => is_sent(msg, wanted),
    }
}

fn is_sent(msg: &Msg, wanted: Sent) -> bool {
    match msg {
        Msg::Get { page, write } => is_get(*page, *write, wanted),
        Msg::Back { page, image } => is_back(*page, image, wanted),
        Msg::Ack { number, count } => is_ack(*number, *count, wanted),
        _ => false,
    }
}

fn is_get(asked: Page, writes: bool, wanted: Sent) -> bool {
    match wanted {
        Sent::Get { page, write } => asked == page_of(page) && writes == write,
        _ => false,
    }
}

fn is_ack(of: u32, spared: u32, wanted: Sent) -> bool {
    match wanted {
        Sent::Ack { number, count } => of == number && spared == count,
        _ => false,
    }
}

fn is_back(given: Page, image: &PageImage, wanted: Sent) -> bool {
    match wanted {
        Sent::Back { first, second, tag } => {
            given == page_of(1)
                && image.load(0, 4) == first
                && image.load(4, 4) == second
                && has_zeros_from(image, 8)
                && image.tag(0) == tag
                && has_no_tag_from(image, 1)
        }
        _ => false,
    }
}

fn has_zeros_from(image: &PageImage, first: u32) -> bool {
    for offset in first..4096 {
        if image.byte(offset) != 0 {
            return false;
        }
    }
    true
}

fn has_no_tag_from(image: &PageImage, first: u8) -> bool {
    for granule in first..64 {
        if image.tag(granule) != 0 {
            return false;
        }
    }
    true
}

/// A note of the log, so many before the last.
fn note_before(log: &Log, count: usize) -> Option<Note> {
    if count < log.len() {
        Some(log.get(log.len() - 1 - count))
    } else {
        None
    }
}

const fn get(page: u32, write: bool) -> Sent {
    Sent::Get { page, write }
}

const fn fill_of(page: u32, writable: bool, word: u32) -> Act {
    Act::Fill {
        page,
        writable,
        word,
    }
}

/// Page 1 with the word that was loaded, and the same word that was stored.
const TWICE: Sent = Sent::Back {
    first: 0x55,
    second: 0x55,
    tag: 64,
};

/// A bench whose thread has loaded a word of page 1 and stored it there.
fn stored_bench(alloc: Global, program: &[u8]) -> Result<Bench, Fail>
    ensures { IfOk result (λ bench. IsReady bench.blade bench.images.items) }
{
    let rows = [
        (Act::Step, Sent::Nothing, Sent::Nothing),
        (Act::Step, get(1, false), Sent::Nothing),
        (fill_of(1, true, 0x55), Sent::Nothing, Sent::Nothing),
        (Act::Step, Sent::Nothing, Sent::Nothing),
        (Act::Drain, Sent::Nothing, Sent::Nothing),
    ];
    let mut bench = new_bench(alloc, program)?;
    if bench.first_other(&rows)?.is_some() {
        return Err(Fail::from("the thread did not store"));
    }
    Ok(bench)
}

#[test]
fn a_load_and_a_store_wait_for_their_page(rt: HostRuntime) -> Result<(), Fail> {
    let rows = [
        (Act::Step, Sent::Nothing, Sent::Nothing),
        (Act::Step, get(1, false), Sent::Nothing),
        (Act::Step, Sent::Nothing, Sent::Nothing), // it waits
        (fill_of(1, false, 0x55), Sent::Nothing, Sent::Nothing),
        (Act::Step, Sent::Nothing, Sent::Nothing),
        (Act::Evict { page: 1 }, Sent::Nothing, Sent::Nothing),
        (Act::Drain, get(1, true), Sent::Nothing),
        (Act::Drain, Sent::Nothing, Sent::Nothing), // it waits
        (fill_of(1, true, 0x66), Sent::Nothing, Sent::Nothing),
        (
            Act::Evict { page: 1 },
            Sent::Back {
                first: 0x66,
                second: 0x55,
                tag: 64,
            },
            Sent::Nothing,
        ),
    ];
    let mut bench = new_bench(rt.alloc(), &PROGRAM)?;
    assert_eq!(rt; bench.first_other(&rows)?, None);
    assert!(rt; bench.blade.quiet());
    Ok(())
}

#[test]
fn held_pages_are_given_up_the_least_recently_used_first(rt: HostRuntime) -> Result<(), Fail> {
    let rows = [
        (Act::Step, Sent::Nothing, Sent::Nothing),
        (Act::Step, get(2, false), Sent::Nothing),
        (fill_of(2, false, 7), Sent::Nothing, Sent::Nothing),
        (
            Act::Inv {
                number: 7,
                asked: 2,
            },
            TWICE,
            Sent::Ack {
                number: 7,
                count: 1,
            },
        ),
    ];
    let give = [
        Note::Give {
            blade: 0,
            page: page_of(1),
        },
        Note::Give {
            blade: 0,
            page: page_of(2),
        },
    ];
    let mut bench = stored_bench(rt.alloc(), &LONGER)?;
    assert_eq!(rt; bench.first_other(&rows)?, None);
    assert_eq!(rt; note_before(&bench.log, 1), Some(give[0]));
    assert_eq!(rt; note_before(&bench.log, 0), Some(give[1]));
    Ok(())
}

#[test]
fn a_page_that_is_lowered_goes_back_once(rt: HostRuntime) -> Result<(), Fail> {
    let lower = Act::Lower {
        number: 6,
        asked: 1,
    };
    let ack = Sent::Ack {
        number: 6,
        count: 0,
    };
    let rows = [(lower, TWICE, ack), (lower, ack, Sent::Nothing)];
    let mut bench = stored_bench(rt.alloc(), &PROGRAM)?;
    assert_eq!(rt; bench.first_other(&rows)?, None);
    Ok(())
}

#[test]
fn a_message_that_answers_nothing_may_not_come(rt: HostRuntime) -> Result<(), Fail> {
    let mut bench = new_bench(rt.alloc(), &PROGRAM)?;
    let fill = message_of(rt.alloc(), fill_of(1, true, 0))?;
    let deny = message_of(rt.alloc(), Act::Deny { page: 1 })?;
    assert!(rt; !bench.blade.may_receive(&fill) && !bench.blade.may_receive(&deny));
    let rows = [
        (Act::Step, Sent::Nothing, Sent::Nothing),
        (Act::Step, get(1, false), Sent::Nothing),
    ];
    assert_eq!(rt; bench.first_other(&rows)?, None);
    assert!(rt; bench.blade.may_receive(&fill) && bench.blade.may_receive(&deny));
    Ok(())
}

#[test]
fn a_load_that_is_denied_is_the_last_that_its_thread_does(rt: HostRuntime) -> Result<(), Fail> {
    let rows = [
        (Act::Step, Sent::Nothing, Sent::Nothing),
        (Act::Step, get(1, false), Sent::Nothing),
        (Act::Deny { page: 1 }, Sent::Nothing, Sent::Nothing),
        (Act::Step, Sent::Nothing, Sent::Nothing),
    ];
    let mut bench = new_bench(rt.alloc(), &PROGRAM)?;
    assert_eq!(rt; bench.first_other(&rows)?, None);
    assert!(rt; bench.blade.quiet());
    assert_eq!(rt; bench.log.len(), 2);
    assert_eq!(rt; note_before(&bench.log, 0), Some(Note::Exec { hart: 0 }));
    Ok(())
}
