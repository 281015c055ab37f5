ghost use Rattle.std.specs.Prelude.{◌≡◌, ◌≢◌, ◌+◌, ◌==◌, ◌++◌, [], Ok, Err, IfOk, IfErr, OnOk, OnErr};
ghost use Rattle.plain_text.specs.Text.{byte_len};
ghost use Rattle.plugin_mirror.specs.declared.fault.BookFault.TheVariants.{NoMemory};
ghost use Rattle.plugin_mirror.specs.Leaf.{opened, page_after, settled, whole_page, with_update, grown, finished, completed, with_text, with_answer, wants_piece, wants_ack};

use crate::fault::BookFault;
use crate::page::Page;
use delta_core::{apply, fits, to_units};
use plain_text::{List, Text};
use plugin_side::Answered;
use std::alloc::Global;
use xi_plain::Notice;

/// A page with what stands beside it.
#[derive(Drop)]
pub struct Leaf {
    pub view: Text,
    /// How many bytes revision 0 was said to have.
    pub len: u64,
    pub page: Page,
    /// The last revision that was taken.
    pub last: u64,
    /// Updates that came before the page was whole, in order.
    pub kept: List<Notice>,
    /// The id of the open ask.
    pub ask: Option<u64>,
    /// Whether an ask was answered by an error.
    pub refused: bool,
    /// The last revision that was acknowledged.
    pub acked: u64,
}

impl Leaf {
    pub fn opened(alloc: Global, view: Text, len: u64) -> Leaf
        ensures { result ≡ opened view len }
    {
        let page = Page {
            rev: 0,
            whole: len == 0,
            text: Text::new(alloc),
        };
        Leaf {
            view,
            len,
            page,
            last: 0,
            kept: List::new(alloc),
            ask: None,
            refused: false,
            acked: 0,
        }
    }

    /// Takes the notice of a revision.
    pub fn update(&mut self, alloc: Global, notice: Notice) -> Result<(), BookFault>
        ensures taken { OnOk result (with_update notice self.old ≡ Ok self.new) }
        ensures fault { IfErr result (λ fault. fault ≢ NoMemory
            → with_update notice self.old ≡ Err fault) }
        ensures same { OnErr result (self.new ≡ self.old) }
    {
        if !is_next(self.last, notice.rev) {
            return Err(BookFault::Gap(self.last));
        }
        let rev = notice.rev;
        if self.page.whole {
            self.page = page_after(alloc, &self.page, &notice)?;
        } else {
            self.kept.push(notice)?;
        }
        self.last = rev;
        Ok(())
    }

    /// Takes the answer to the open ask.
    pub fn answer(&mut self, alloc: Global, answer: Answered) -> Result<(), BookFault>
        ensures taken { OnOk result (with_answer answer self.old ≡ Ok self.new) }
        ensures fault { IfErr result (λ fault. fault ≢ NoMemory
            → with_answer answer self.old ≡ Err fault) }
        ensures same { OnErr result (self.new ≡ self.old) }
    {
        match answer {
            Answered::Chunk { text, offset } => {
                if offset == self.page.text.byte_len() {
                    self.grow(alloc, &text)
                } else {
                    Err(BookFault::Unread)
                }
            }
            Answered::Failed { .. } => {
                self.ask = None;
                self.refused = true;
                Ok(())
            }
            _ => Err(BookFault::Unread),
        }
    }

    /// Puts a piece behind the text.
    fn grow(&mut self, alloc: Global, piece: &Text) -> Result<(), BookFault>
        ensures taken { OnOk result (with_text self.old (self.old.page.text ++ piece.now) ≡ Ok self.new) }
        ensures fault { IfErr result (λ fault. fault ≢ NoMemory
            → with_text self.old (self.old.page.text ++ piece.now) ≡ Err fault) }
        ensures same { OnErr result (self.new ≡ self.old) }
    {
        let got = joined_len(&self.page.text, piece);
        if got > self.len {
            Err(BookFault::Length(got))
        } else if got < self.len {
            self.lengthen(piece)
        } else {
            self.finish(alloc, piece)
        }
    }

    /// Puts a piece behind the text that is not the last one.
    fn lengthen(&mut self, piece: &Text) -> Result<(), BookFault>
        ensures taken { OnOk result (self.new ≡ grown self.old (self.old.page.text ++ piece.now)) }
        ensures fault { IfErr result (λ fault. fault ≡ NoMemory) }
        ensures same { OnErr result (self.new ≡ self.old) }
    {
        self.page.text.push_text(piece)?;
        self.page.whole = false;
        self.ask = None;
        Ok(())
    }

    /// Puts the last piece behind the text, and applies what was kept.
    fn finish(&mut self, alloc: Global, piece: &Text) -> Result<(), BookFault>
        ensures taken { OnOk result (completed self.old (self.old.page.text ++ piece.now) ≡ Ok self.new) }
        ensures fault { IfErr result (λ fault. fault ≢ NoMemory
            → completed self.old (self.old.page.text ++ piece.now) ≡ Err fault) }
        ensures same { OnErr result (self.new ≡ self.old) }
    {
        if self.kept.is_empty() {
            self.complete(piece)
        } else {
            self.settle(alloc, piece)
        }
    }

    /// The same, where nothing was kept: the piece is put in place.
    fn complete(&mut self, piece: &Text) -> Result<(), BookFault>
        requires { self.old.kept ≡ [] }
        ensures taken { OnOk result (self.new ≡ finished self.old
            (whole_page self.old (self.old.page.text ++ piece.now))) }
        ensures fault { IfErr result (λ fault. fault ≡ NoMemory) }
        ensures same { OnErr result (self.new ≡ self.old) }
    {
        self.page.text.push_text(piece)?;
        self.page.whole = true;
        self.ask = None;
        Ok(())
    }

    /// The same, on a copy of the text.
    fn settle(&mut self, alloc: Global, piece: &Text) -> Result<(), BookFault>
        ensures taken { OnOk result (completed self.old (self.old.page.text ++ piece.now) ≡ Ok self.new) }
        ensures fault { IfErr result (λ fault. fault ≢ NoMemory
            → completed self.old (self.old.page.text ++ piece.now) ≡ Err fault) }
        ensures same { OnErr result (self.new ≡ self.old) }
    {
        self.page = self.settled(alloc, piece)?;
        self.kept = List::new(alloc);
        self.ask = None;
        Ok(())
    }

    /// The page with the last piece of its text, after the updates that are kept.
    fn settled(&self, alloc: Global, last: &Text) -> Result<Page, BookFault>
        ensures taken { IfOk result (λ page. settled self.now.kept
            (whole_page self.now (self.now.page.text ++ last.now)) ≡ Ok page) }
        ensures fault { IfErr result (λ fault. fault ≢ NoMemory → settled self.now.kept
            (whole_page self.now (self.now.page.text ++ last.now)) ≡ Err fault) }
    {
        let mut text = Text::new(alloc);
        text.push_text(&self.page.text)?;
        text.push_text(last)?;
        let mut page = Page {
            rev: self.page.rev,
            whole: true,
            text,
        };
        for notice in self.kept.as_slice() {
            page = page_after(alloc, &page, notice)?;
        }
        Ok(page)
    }

    pub fn wants_piece(&self) -> bool
        ensures { result ≡ wants_piece self.now }
    {
        !self.page.whole && !self.refused && self.ask.is_none()
    }

    pub fn wants_ack(&self) -> bool
        ensures { result ≡ wants_ack self.now }
    {
        self.page.whole && self.acked < self.page.rev
    }
}

/// How many bytes two texts have.
fn joined_len(first: &Text, second: &Text) -> u64
    ensures { result ≡ byte_len (first.now ++ second.now) }
{
    first.as_str().len() as u64 + second.as_str().len() as u64
}

/// Whether a revision is the one after another.
fn is_next(last: u64, rev: u64) -> bool
    ensures { result ≡ (rev == last + 1) }
{
    last < rev && rev - 1 == last
}

/// The page after an update.
fn page_after(alloc: Global, page: &Page, notice: &Notice) -> Result<Page, BookFault>
    ensures taken { IfOk result (λ made. page_after page.now notice.now ≡ Ok made) }
    ensures fault { IfErr result (λ fault. fault ≢ NoMemory
        → page_after page.now notice.now ≡ Err fault) }
{
    if let Err(misfit) = fits(&page.text, &notice.delta) {
        return Err(BookFault::Bad(misfit));
    }
    let units = to_units(alloc, &page.text, &notice.delta)?;
    let text = apply(alloc, &page.text, &units)?;
    let len = text.byte_len();
    if len != notice.new_len {
        return Err(BookFault::Length(len));
    }
    Ok(Page {
        rev: notice.rev,
        whole: true,
        text,
    })
}
