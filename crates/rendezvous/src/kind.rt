// Stations that meet as a kind of net: what the calls of `schedule` ask of one.
ghost use Rattle.rendezvous.specs.Net.{Net, net_in, beside_in};
ghost use Rattle.rendezvous.specs.Rules.{rules};
ghost use Rattle.rendezvous.specs.Internal.Listings.{Lists};

use crate::listing::{NO_SENDS, Sends, States, Takable};
use crate::telling::Opened;
use crate::{figure, form, listing};
use schedule::Step;
use schedule::calls::Kind;
use schedule::rows::Sizes;

// What is known of a net whose steps are listed: what each station may send, who is in which state, and the rows with their sizes.
#[derive(Clone, Copy)]
pub(crate) struct Listing {
    pub(crate) kept: [Sends; 64],
    pub(crate) states: States,
    pub(crate) rows: [u64; 256],
    pub(crate) sizes: Sizes,
}

pub(crate) struct Meeting;

impl Kind for Meeting {
    type Beside = [u64; 576];

    type Listing = Listing;

    ghost Net = { Net };

    ghost rules = { rules };

    ghost view = { net_in };

    ghost rest = { beside_in };

    ghost Lists = { Lists };

    fn is_well_formed(net: &[u64; 705], totals: &[u64; 576]) -> bool {
        form::is_well_formed(net, totals)
    }

    fn is_in_range(net: &[u64; 705], _totals: &[u64; 576], step: Step) -> bool {
        figure::is_in_range(stations::config_in(net), form::carrying_in(net), step)
    }

    fn is_allowed(net: &[u64; 705], _totals: &[u64; 576], step: Step) -> bool {
        figure::is_allowed(net, stations::config_in(net), step)
    }

    fn make(net: &mut [u64; 705], totals: &mut [u64; 576], step: Step) {
        let t = stations::config_in(net);
        figure::make(net, totals, t, step);
    }

    fn blank() -> Listing {
        Listing {
            kept: [NO_SENDS; 64],
            states: States {
                asleep: 0,
                active: 0,
            },
            rows: [0; 256],
            sizes: schedule::rows::no_sizes(),
        }
    }

    fn list(net: &[u64; 705], totals: &[u64; 576], l: &mut Listing) -> bool {
        let Some(states) = listing::survey(net, totals, &mut l.kept) else {
            return false;
        };
        l.states = states;
        let k = stations::config_in(net).k;
        let kept = &l.kept;
        l.sizes = Takable { k, kept, states }.fill(&mut l.rows);
        true
    }

    fn pick(net: &[u64; 705], _totals: &[u64; 576], l: &Listing, d: u16) -> Option<Step> {
        let t = stations::config_in(net);
        listing::choose(&Opened { net, t }, &l.rows, l.sizes, d)
    }

    // The form is tested once, by `list`: after that, only the receiver can break it. What the stations may send is found anew of the two that a
    // step changes; the rows follow each step.
    fn advance(net: &mut [u64; 705], totals: &mut [u64; 576], l: &mut Listing, step: Step) -> bool {
        let t = stations::config_in(net);
        figure::make(net, totals, t, step);
        let old = l.states;
        let sent = listing::renew(&mut l.kept, old, net, t, step.sender);
        let states = listing::renew(&mut l.kept, sent, net, t, step.receiver);
        l.states = states;
        if !form::keeps_form(net, t, step) {
            return false;
        }
        let k = t.k;
        let kept = &l.kept;
        l.sizes = Takable { k, kept, states }.follow(&mut l.rows, l.sizes, old, step);
        true
    }
}
