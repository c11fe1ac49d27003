// Stations with mail as a kind of net: what the calls of `schedule` ask of one.
ghost use Rattle.stations.specs.Words.{spare_in};
ghost use Rattle.mailbox.specs.Net.{Net, net_of};
ghost use Rattle.mailbox.specs.Rules.{rules};
ghost use Rattle.mailbox.specs.Internal.Listings.{Lists};

use crate::listing::{Takers, Waiting};
use crate::{delivery, listing};
use schedule::Step;
use schedule::calls::Kind;
use schedule::rows::Sizes;

// What is known of a net whose steps are listed: who takes a message, and the rows with their sizes.
#[derive(Clone, Copy)]
pub(crate) struct Listing {
    pub(crate) takers: Takers,
    pub(crate) rows: [u64; 256],
    pub(crate) sizes: Sizes,
}

pub(crate) struct Mailing;

impl Kind for Mailing {
    type Beside = [u64; 36992];

    type Listing = Listing;

    ghost Net = { Net };

    ghost rules = { rules };

    ghost view = { net_of };

    ghost rest = { spare_in };

    ghost Lists = { Lists };

    fn is_well_formed(line: &[u64; 705], boxes: &[u64; 36992]) -> bool {
        crate::is_well_formed(line, boxes)
    }

    fn is_in_range(line: &[u64; 705], _boxes: &[u64; 36992], step: Step) -> bool {
        delivery::is_in_range(stations::config_in(line), step)
    }

    fn is_allowed(line: &[u64; 705], boxes: &[u64; 36992], step: Step) -> bool {
        let receiver = stations::load(line, step.receiver);
        delivery::may_step(
            step,
            receiver,
            mail::box_at(boxes, step.sender, step.receiver),
        )
    }

    fn make(line: &mut [u64; 705], boxes: &mut [u64; 36992], step: Step) {
        let t = stations::config_in(line);
        crate::make(line, boxes, t, step);
    }

    fn blank() -> Listing {
        Listing {
            takers: Takers {
                starts: 0,
                answers: 0,
            },
            rows: [0; 256],
            sizes: schedule::rows::no_sizes(),
        }
    }

    fn list(line: &[u64; 705], boxes: &[u64; 36992], l: &mut Listing) -> bool {
        if !crate::is_well_formed(line, boxes) {
            return false;
        }
        let t = stations::config_in(line);
        let takers = listing::find_takers(line, t.k);
        let waiting = Waiting {
            t,
            takers,
            reports: listing::root_reports(line, t),
            boxes,
        };
        l.takers = takers;
        l.sizes = waiting.fill(&mut l.rows);
        true
    }

    fn pick(line: &[u64; 705], _boxes: &[u64; 36992], l: &Listing, d: u16) -> Option<Step> {
        schedule::rows::pick(&l.rows, l.sizes, stations::config_in(line).k, d)
    }

    // The form is tested once, by `list`: after that, only what the receiver has gathered can break it. Who takes a message is found anew of the
    // receiver; the rows follow each step.
    fn advance(
        line: &mut [u64; 705],
        boxes: &mut [u64; 36992],
        l: &mut Listing,
        step: Step,
    ) -> bool {
        let t = stations::config_in(line);
        let next = crate::make(line, boxes, t, step);
        if !aggregate::is_bounded(t, next.held) {
            return false;
        }
        let old = l.takers;
        let takers = listing::retake(old, step.receiver, next);
        let waiting = Waiting {
            t,
            takers,
            reports: listing::root_reports(line, t),
            boxes,
        };
        l.takers = takers;
        l.sizes = waiting.follow(&mut l.rows, l.sizes, old, step);
        true
    }
}
