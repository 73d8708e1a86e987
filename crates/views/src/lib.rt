// A list of a KEXINIT as a view over the lent payload: the slice, a cursor that yields its names one at a time, and what opening gave
// beside it. Each function is thin, over a covered one that takes the slice and the cursor.
#![tactic(auto)]

ghost use Rattle.std.specs.Prelude.{◌≡◌, length};
ghost use Rattle.wire.specs.Parts.{inside, bytes_at, place_at};
ghost use Rattle.names.specs.Cursor.{next_name};
ghost use Rattle.names.specs.Next.{next_told};
ghost use Rattle.kexinit.specs.Reader.{head_told, open_list};
ghost use Rattle.views.specs.View.{view_told, opened_by, yielded, left_by};

use kexinit::{Fixed, Refused};
use limits::Refusal;
use names::{Cursor, Named};
use wire::Part;

#[derive(Clone, Copy)]
pub struct View<'a> {
    pub payload: &'a [u8],
    pub cursor: Cursor,
    pub head: Result<Fixed, Refused>,
}

// What opening gave, of a view that was not opened.
const NOT_OPENED: Refused = Refused {
    cause: Refusal::NotDue,
    position: 0,
};

// No Iterator: at a bad name a view stays, and yields 19 each time, so that a `for` over one need not end.
impl<'a> View<'a> {
    // Opens a view on a list, 1 to 10. A refused one yields only the end.
    pub fn open(payload: &'a [u8], list: usize) -> View<'a>
        ensures { view_told result ≡ opened_by payload.entry (open_list payload.now list) }
    {
        match kexinit::open_list(payload, list) {
            Ok(o) => View {
                payload,
                cursor: o.cursor,
                head: Ok(o.fixed),
            },
            Err(r) => View {
                payload,
                cursor: names::NOTHING_AHEAD,
                head: Err(r),
            },
        }
    }

    // The next name of a view, or its end, or 19. The view stays at the end and at a bad name.
    pub fn next_name(&mut self) -> Result<Option<Named>, Refusal>
        ensures { (next_told self.old.cursor result ≡ yielded (view_told self.old)) × (view_told self.new ≡ left_by (view_told self.old) (yielded (view_told self.old))) × (self.new.head ≡ self.old.head) }
    {
        let n = names::next_name(self.payload, self.cursor);
        if let Ok(Some(found)) = n {
            self.cursor = found.cursor;
        }
        n
    }

    // A name that a view yielded, as a part of the payload.
    pub fn name_at(self, name: Part) -> &'a [u8]
        ensures { (result.now ≡ bytes_at self.entry.payload.now (inside (length self.entry.payload.now) name)) × (result.ref_ptr ≡ place_at self.entry.payload.ref_ptr (inside (length self.entry.payload.now) name)) }
    {
        wire::part_of(self.payload, name)
    }
}

// Opens a view, and hands back what that gave beside its cursor: for callers that hold no view.
pub fn open_by_view(payload: &[u8], list: usize) -> Result<Fixed, Refused>
    ensures { head_told result ≡ (open_list payload.now list).head }
{
    View::open(payload, list).head
}

// A step of a view that stands at a cursor, likewise.
pub fn next_by_view(payload: &[u8], cursor: Cursor) -> Result<Option<Named>, Refusal>
    ensures { next_told cursor result ≡ next_name payload.now cursor }
{
    let mut v = View {
        payload,
        cursor,
        head: Err(NOT_OPENED),
    };
    v.next_name()
}
