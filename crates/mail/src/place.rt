// Where the words of a mailbox stand. Only stations below 64 have mailboxes, so a place holds two such.
ghost use Rattle.std.specs.Prelude.{◌≡◌, ◌<◌, ◌&&◌, false, ltb, MatchOption};
ghost use Rattle.mail.specs.Mail.{missing_place, sum_place};

// The first words of the sets of answers, of the missing numbers, and of the sums of class 0; and how many words the sums of a class take.
pub(crate) const ANSWERS: usize = 64;

const MISSING: usize = 128;

const SUMS: usize = 4224;

const CLASS: usize = 4096;

// A mailbox, from one station to another.
#[derive(Clone, Copy)]
pub(crate) struct Place {
    pub(crate) from: u8,
    pub(crate) to: u8,
    ghost below: { (from < 64) × (to < 64) },
}

impl Place {
    // The mailbox between two stations; other numbers have none.
    pub(crate) fn between(from: u8, to: u8) -> Option<Place>
        ensures { MatchOption result ((ltb from 64 && ltb to 64) ≡ false) (λ p. (p.from ≡ from) × (p.to ≡ to)) }
    {
        if from < 64 && to < 64 {
            Some(Place { from, to })
        } else {
            None
        }
    }

    // Where the missing numbers of an answer stand.
    pub(crate) fn missing(self) -> usize
        ensures { result ≡ missing_place self.from self.to }
    {
        MISSING + (self.from as usize) * 64 + (self.to as usize)
    }

    // Where its sum of class j stands.
    pub(crate) fn sum(self, j: usize) -> usize
        requires { j < 8 }
        ensures { result ≡ sum_place j self.from self.to }
    {
        SUMS + CLASS * j + (self.from as usize) * 64 + (self.to as usize)
    }
}
