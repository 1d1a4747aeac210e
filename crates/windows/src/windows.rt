// The window: which bytes of a room wait. Meaning: specs/Windows.antt. Refusals: none.
ghost use Rattle.std.specs.Prelude.{◌≡◌, ◌++◌, ◌+◌, ◌-◌, ◌≤◌, min, length, take, drop};
ghost use Rattle.windows.specs.Windows.{empty_window, count_of, waiting_in, after_taking, front_window, front_room, with_more, filled_of, filled_room};

// The bytes of a room from one place up to another wait. The room is lent anew with each call, and is always the same one: a table of the library's own would need the
// heap, and one kept as `&mut` could not be read from outside meanwhile.
#[derive(Clone, Copy)]
pub struct Window {
    pub from: usize,
    pub to: usize,
}

// The window after a chunk, and how many bytes of the chunk were taken.
#[derive(Clone, Copy)]
pub struct Filled {
    pub window: Window,
    pub taken: usize,
}

// Puts as many bytes of the chunk into the room from a place on as it has room for, and gives how many.
fn put_behind(room: &mut [u8], at: usize, chunk: &[u8]) -> usize
    requires { at ≤ length room.old }
    ensures taken { result ≡ min (length room.old - at) (length chunk.now) }
    ensures room { room.new ≡ take at room.old ++ (take result chunk.now ++ drop (at + result) room.old) }
{
    let count = chunk.len().min(room.len() - at);
    room[at..at + count].copy_from_slice(&chunk[..count]);
    count
}

impl Window {
    // Gives the window in which no byte waits.
    // Tables: none. Refusals: none.
    pub fn empty() -> Window
        ensures window { result ≡ empty_window }
    {
        Window { from: 0, to: 0 }
    }

    // Gives how many bytes wait.
    // Tables: none. Refusals: none.
    pub fn count(self) -> usize
        ensures count { result ≡ count_of self }
    {
        self.to.saturating_sub(self.from)
    }

    // Gives the bytes that wait.
    // Tables: room is only read. Refusals: none.
    pub fn bytes(self, room: &[u8]) -> &[u8]
        ensures bytes { result.now ≡ waiting_in self room.now }
    {
        let end = self.to.min(room.len());
        let begin = self.from.min(end);
        &room[begin..end]
    }

    // Gives the window where so many of the bytes are taken, the first ones: no more than wait.
    // Tables: none. Refusals: none.
    #[tactic(auto, unfolding(crate::specs::Windows::after_taking))]
    pub fn after(self, taken: usize) -> Window
        ensures window { result ≡ after_taking self taken }
    {
        Window {
            from: self.from + taken.min(self.count()),
            to: self.to,
        }
    }

    // Moves the bytes that wait to the front of the room, so that all behind them is free. Begin and end are found as in `bytes`, in two lines: as a range of a function's
    // own they would be taken apart again.
    // Tables: room has the bytes that wait at its front, and is else as before. Refusals: none.
    pub fn make_room(self, room: &mut [u8]) -> Window
        ensures window { result ≡ front_window self room.old }
        ensures room { room.new ≡ front_room self room.old }
    {
        let end = self.to.min(room.len());
        let begin = self.from.min(end);
        room.copy_within(begin..end, 0);
        Window {
            from: 0,
            to: end - begin,
        }
    }

    // Gives the window where so many bytes more have come right behind those that wait: no more than the room has there.
    // Tables: room is only read. Refusals: none.
    #[tactic(auto, unfolding(crate::specs::Windows::with_more))]
    pub fn with_more(self, room: &[u8], came: usize) -> Window
        ensures window { result ≡ with_more self room.now came }
    {
        let to = self.to.min(room.len());
        Window {
            from: self.from,
            to: self.to + came.min(room.len() - to),
        }
    }

    // Puts the bytes of a chunk behind those that wait, which move to the front of the room, and gives how many: all that it has room for.
    // Tables: room has the bytes that wait, old and new, at its front, and is else as before; chunk is only read. Refusals: none.
    pub fn fill(self, room: &mut [u8], chunk: &[u8]) -> Filled
        ensures filled { result ≡ filled_of self room.old chunk.now }
        ensures room { room.new ≡ filled_room self room.old chunk.now }
    {
        let front = self.make_room(room);
        let waiting = front.to;
        let taken = put_behind(room, waiting, chunk);
        Filled {
            window: Window {
                from: 0,
                to: waiting + taken,
            },
            taken,
        }
    }
}
