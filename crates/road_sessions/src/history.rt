//! The one history of a store. Only the proofs have it, page by page in a logbook. The program stores its length, and
//! values that have seen a prefix of it.
ghost use Rattle.std.specs.Prelude.{◌≡◌, ◌<◌, ◌≤◌, ◌^◌, ◌++◌, ◌∷◌, [], length, IsTrue, MatchBool};
ghost use mathlib.Core.List.{IsPrefix};
ghost use Rattle.logbook.specs.Pages.{may_write};
ghost use Rattle.road_sheet.specs.Commands.{IsAllowed};
ghost use Rattle.road_sessions.specs.Journals.{IsLegal, entry_command};
ghost use Rattle.road_sessions.specs.Private.Books.{first_word};

use crate::entry::Entry;
use crate::naming::Naming;
use logbook::{Gain, Offer, Pen, Plain, Play, Rule, Seen, Start, Word};
use std::marker::{Model, PhantomData};

/// A page of the logbook. Only contracts use it: the program never makes one.
pub struct Page {
    /// Its entry.
    pub entry: Entry,
    /// The key of the pen that wrote it.
    pub by: u64,
    /// The key of the pen that may write the next one.
    pub next: u64,
}

/// The rule of a history's logbook: the pen that wrote a page is spent.
pub struct PageRule;

impl Rule<Page, u64> for PageRule {
    ghost use Rattle.std.specs.Prelude.{[]};
    ghost use base.Fml.{ftrue};
    ghost use Rattle.road_sessions.specs.Private.Books.{HasPages};

    ghost holds = { λ cells pages. HasPages cells pages };

    ghost first = { [] };

    ghost hinted = { λ n pages. Unit {0} };

    ghost shows = { λ pages. [] };

    ghost keeps = { λ names pages. ftrue };

    ghost moves = { λ ask before after answer. Unit {0} };
}

/// Writing a page returns nothing.
pub struct NoGain;

impl Gain<Page, u64> for NoGain {
    ghost use base.Fml.{ftrue};

    ghost after = { λ names about answer. ftrue };
}

/// The parts of a page: an entry, the pen that writes it, and the pen of the next page.
#[derive(Drop)]
pub struct Line<'a> {
    entry: &'a Entry,
    by: &'a Pen,
    next: &'a Pen,
}

/// The step that writes a page.
pub struct Append;

impl Play<Page, u64> for Append {
    ghost use Rattle.road_sessions.specs.Private.Books.{Appends};

    ghost then = { Appends };
}

impl<'a> Plain<Line<'a>, Page, u64> for Append {
    ghost use Rattle.std.specs.Prelude.{None};
    ghost use Rattle.road_sessions.specs.Private.Books.{page};

    ghost ask = { λ line. page line.entry.now line.by.now.nib.key line.next.now.nib.key };

    ghost state = { λ line. None };
}

/// The step that shows all pages to whoever may write the next one.
pub struct KnowAll;

impl Play<Page, u64> for KnowAll {
    ghost use Rattle.road_sessions.specs.Private.Books.{KnowsAll};

    ghost then = { KnowsAll };
}

impl Plain<(), Page, u64> for KnowAll {
    ghost use Rattle.std.specs.Prelude.{None};
    ghost use Rattle.road_sessions.specs.Private.Books.{no_page};

    ghost ask = { λ _. no_page };

    ghost state = { λ _. None };
}

/// The step that makes a pen.
pub struct MakePen;

impl Play<Page, u64> for MakePen {
    ghost use Rattle.road_sessions.specs.Private.Books.{MakesPen};

    ghost then = { MakesPen };
}

impl Plain<(), Page, u64> for MakePen {
    ghost use Rattle.std.specs.Prelude.{None};
    ghost use Rattle.road_sessions.specs.Private.Books.{no_page};

    ghost ask = { λ _. no_page };

    ghost state = { λ _. None };
}

// Make a pen that may write one page.
fn new_pen(word: &Word<Page, u64, PageRule>, seen: &Seen<Page, u64, PageRule>) -> Pen
    requires { word.now ≡ first_word seen.now.book }
    ensures { (result.book ≡ seen.now.book) × (result.nib.right ≡ may_write) }
{
    let mut later = seen.again();
    let mut offer: Offer<Page, u64, PageRule, NoGain> = later.plain::<NoGain, (), MakePen>(&());
    let mut pen = later.no_pen();
    word.compare_exchange::<MakePen, NoGain>(0, 0, &mut later, &mut offer, &mut pen);
    let _made: Word<Page, u64, PageRule> = Word::tracked(0, &mut pen);
    pen
}

/// An empty history that belongs to no store yet. Contracts see it as its book.
#[derive(Drop)]
pub struct EmptyHistory {
    word: Word<Page, u64, PageRule>,
    seen: Seen<Page, u64, PageRule>,
    pen: Pen,
}

impl Model for EmptyHistory {
    ghost use Rattle.std.specs.Prelude.{◌≡◌, []};
    ghost use Rattle.logbook.specs.Pages.{may_write};
    ghost use Rattle.road_sessions.specs.Books.{Book};
    ghost use Rattle.road_sessions.specs.Private.Books.{book, first_word};

    ghost Value = { Book };

    ghost view = { λ h. book h.seen.book h.pen.nib.key };

    ghost invariant = { λ h. (h.seen.log ≡ []) × (h.word ≡ first_word h.seen.book)
        × (h.pen.book ≡ h.seen.book) × (h.pen.nib.right ≡ may_write) };
}

impl EmptyHistory {
    // Open a logbook for the history, with the pen of its first page.
    pub(crate) fn new() -> EmptyHistory {
        let (seen, mut home, _unused) = Seen::open(Start::alone(), 0, 0);
        let word = Word::tracked(0, &mut home);
        let pen = new_pen(&word, &seen);
        EmptyHistory { word, seen, pen }
    }

    // Turn it into the whole history of a store, and return the word that writes need.
    pub(crate) fn of_store<J: Naming>(self) -> (Head<J>, Whole<J>)
        requires { self ≡ J.book }
        ensures { result.1 ≡ [] }
    {
        let EmptyHistory { word, seen, pen } = self;
        let head = Head {
            word,
            of: PhantomData,
        };
        let whole = Whole {
            count: 0,
            seen,
            pen,
            of: PhantomData,
        };
        (head, whole)
    }
}

/// The word that each step of a store's logbook exchanges.
#[derive(Drop)]
pub struct Head<J: Naming> {
    word: Word<Page, u64, PageRule>,
    of: PhantomData<J>,
    ghost word_is: { word ≡ first_word J.book.pages },
}

/// The whole history of a store, and the right to write its next entry, which nothing else has. Contracts see it as its
/// entries.
#[derive(Drop)]
pub struct Whole<J: Naming> {
    count: u64,
    seen: Seen<Page, u64, PageRule>,
    pen: Pen,
    of: PhantomData<J>,
}

impl<J: Naming> Model for Whole<J> {
    ghost use Rattle.std.specs.Prelude.{◌≡◌, List, length};
    ghost use Rattle.std.specs.Coded.{codes};
    ghost use Rattle.logbook.specs.Pages.{may_write};
    ghost use Rattle.road_scenario.specs.Instances.EditOrder.{edits_code};
    ghost use Rattle.road_sessions.specs.declared.entry.Entry.{Entry};
    ghost use Rattle.road_sessions.specs.Journals.{IsLegal};
    ghost use Rattle.road_sessions.specs.Private.Books.{entries_from, pen_after};

    ghost Value = { List Entry };

    ghost coded = { Prim.hlevel (codes, edits_code) };

    ghost view = { λ b. entries_from J.book.first_pen b.seen.log };

    ghost invariant = { λ b. (b.count ≡ length (entries_from J.book.first_pen b.seen.log))
        × (b.seen.book ≡ J.book.pages) × IsLegal J.replica (entries_from J.book.first_pen b.seen.log)
        × (b.pen.book ≡ J.book.pages) × (b.pen.nib.right ≡ may_write)
        × (b.pen.nib.key ≡ pen_after J.book.first_pen b.seen.log) };
}

impl<J: Naming> Whole<J> {
    // Return a value that has seen the whole history.
    pub(crate) fn prefix(&self) -> Prefix<J>
        ensures same { result ≡ self.now }
        ensures legal { IsLegal J.replica self.now }
    {
        Prefix {
            count: self.count,
            seen: self.seen.again(),
            of: PhantomData,
        }
    }

    // Show that what a value has seen is a prefix of this history.
    pub(crate) fn know(&mut self, head: &Head<J>, seen: &Prefix<J>)
        ensures prefix { IsPrefix seen.now self.old }
        ensures same { self.new ≡ self.old }
        ensures legal { IsLegal J.replica self.old }
    {
        let mut both = self.seen.again();
        both.learn(&seen.seen);
        let mut offer: Offer<Page, u64, PageRule, NoGain> = both.plain::<NoGain, (), KnowAll>(&());
        head.word
            .compare_exchange::<KnowAll, NoGain>(0, 0, &mut both, &mut offer, &mut self.pen);
    }

    // Append an entry.
    pub(crate) fn append(&mut self, head: &Head<J>, entry: &Entry)
        requires room { length self.old < 2 ^ 62 }
        requires allowed { IsAllowed J.replica.sheet.plan (entry_command entry.now.command) }
        ensures { self.new ≡ self.old ++ entry.now ∷ [] }
    {
        let next = new_pen(&head.word, &self.seen);
        let line = Line {
            entry,
            by: &self.pen,
            next: &next,
        };
        let mut offer: Offer<Page, u64, PageRule, NoGain> = self
            .seen
            .plain::<NoGain, Line<'_>, Append>(&line);
        head.word
            .compare_exchange::<Append, NoGain>(0, 0, &mut self.seen, &mut offer, &mut self.pen);
        self.pen = next;
        self.count += 1;
    }
}

/// A prefix of a store's history, seen by somebody. It is legal, as the whole history is. Contracts see it as its
/// entries. The program stores only their number.
#[derive(Drop)]
pub struct Prefix<J: Naming> {
    count: u64,
    seen: Seen<Page, u64, PageRule>,
    of: PhantomData<J>,
}

impl<J: Naming> Model for Prefix<J> {
    ghost use Rattle.std.specs.Prelude.{◌≡◌, List, length};
    ghost use Rattle.std.specs.Coded.{codes};
    ghost use Rattle.road_scenario.specs.Instances.EditOrder.{edits_code};
    ghost use Rattle.road_sessions.specs.declared.entry.Entry.{Entry};
    ghost use Rattle.road_sessions.specs.Journals.{IsLegal};
    ghost use Rattle.road_sessions.specs.Private.Books.{entries_from};

    ghost Value = { List Entry };

    ghost coded = { Prim.hlevel (codes, edits_code) };

    ghost view = { λ b. entries_from J.book.first_pen b.seen.log };

    ghost invariant = { λ b. (b.count ≡ length (entries_from J.book.first_pen b.seen.log))
        × (b.seen.book ≡ J.book.pages) × IsLegal J.replica (entries_from J.book.first_pen b.seen.log) };
}

impl<J: Naming> Prefix<J> {
    // Make another value that has seen the same prefix.
    pub(crate) fn again(&self) -> Prefix<J>
        ensures same { result ≡ self.now }
        ensures legal { IsLegal J.replica self.now }
    {
        Prefix {
            count: self.count,
            seen: self.seen.again(),
            of: PhantomData,
        }
    }

    // Return whether this prefix is at most as long as the other. The shorter one is a prefix of the longer.
    pub(crate) fn is_prefix_of(&self, other: &Prefix<J>) -> bool
        ensures prefix { MatchBool result (IsPrefix self.now other.now) (IsPrefix other.now self.now) }
        ensures length { MatchBool result (length self.now ≤ length other.now) (length other.now < length self.now) }
        ensures legal { IsLegal J.replica self.now }
        ensures other_legal { IsLegal J.replica other.now }
    {
        let mut both = self.seen.again();
        both.learn(&other.seen);
        self.count <= other.count
    }

    // Return whether both have the same length. If so, they are the same.
    pub(crate) fn is_same(&self, other: &Prefix<J>) -> bool
        ensures { IsTrue result → self.now ≡ other.now }
    {
        self.is_prefix_of(other) && other.is_prefix_of(self)
    }
}
