//! One trial for every store: a long fixed sequence of acts, each answer compared with that of a plain map.
// By hand: each `as` in this file casts a number that fits, or widens a u32 to usize, for which the library has no `From`; `try_from` would answer
// an error that cannot come.
use facts::Fact;
use std::process::Abort;
use stores::{Store, StoreFault};

/// The places of the map, one for each label of the trial.
const PLACES: usize = 2_001;

/// The labels are 1, 500, 1,000 and so on to 1,000,000.
fn label_at(place: usize) -> u32 {
    match place {
        0 => 1,
        1..PLACES => place as u32 * 500,
        _ => 1_000_000,
    }
}

/// A number that looks like chance, from the one before.
fn stirred(seed: u32) -> u32 {
    seed.wrapping_mul(1_664_525).wrapping_add(1_013_904_223)
}

/// A fact of kind 0 to 3 or 63, whose first word is from -1 to 2 and whose others differ from it.
fn fact_of(seed: u32) -> Fact {
    let first = i64::from(seed >> 9 & 3) - 1;
    let second = i64::from(seed >> 13 & 3) - 1;
    let kind = match seed >> 17 & 7 {
        0 => 63,
        few => (few & 3) as u8,
    };
    Fact {
        kind,
        words: [first, second, i64::from(seed)],
    }
}

/// The answer, with the fault's number.
fn numbered(answer: Result<(), StoreFault>) -> Result<(), u8> {
    answer.map_err(|fault| fault.number())
}

/// A store on trial, and beside it a plain map of what it is to hold.
#[derive(Drop)]
struct Trial<'a, S: Store> {
    store: &'a mut S,
    map: &'a mut [Option<Fact>],
    capacity: usize,
}

impl<S: Store> Trial<'_, S> {
    fn held(&self) -> usize {
        self.map.iter().flatten().count()
    }

    /// The first label above another whose fact passes a test.
    fn next_that<F: Fn(&Fact) -> bool>(&self, above: u32, passes: F) -> Option<u32>
        requires { F.IsAlwaysCallable passes }
    {
        self.map
            .iter()
            .enumerate()
            .filter(|(_, fact)| fact.as_ref().is_some_and(|fact| passes(fact)))
            .map(|(place, _)| label_at(place))
            .find(|label| *label > above)
    }

    /// Puts a fact at a place: it is refused exactly where the place is empty and the store full.
    fn try_put(&mut self, rt: &impl Abort, place: usize, fact: Fact) {
        assert!(rt; place < self.map.len());
        let full = self.map[place].is_none() && self.held() == self.capacity;
        let answer = numbered(self.store.put(label_at(place), fact));
        assert_eq!(rt; answer, if full { Err(10) } else { Ok(()) }, "put");
        if !full {
            self.map[place] = Some(fact);
        }
    }

    /// Takes the fact of a place, or nothing.
    fn try_take(&mut self, rt: &impl Abort, place: usize) {
        assert!(rt; place < self.map.len());
        let answer = self.store.take(label_at(place));
        assert_eq!(rt; answer, self.map[place], "take");
        self.map[place] = None;
    }

    /// Puts that are refused whatever the store holds: for the kind, also where the label is out of range, and for the label.
    fn try_refused(&mut self, rt: &impl Abort, place: usize, fact: Fact) {
        let words = fact.words;
        let wrong = Fact { kind: 64, words };
        assert_eq!(rt; numbered(self.store.put(label_at(place), wrong)), Err(1));
        assert_eq!(rt; numbered(self.store.put(0, wrong)), Err(1));
        assert_eq!(rt; numbered(self.store.put(0, fact)), Err(12));
        assert_eq!(rt; numbered(self.store.put(1_000_001, fact)), Err(12));
        assert_eq!(rt; numbered(self.store.put(u32::MAX, fact)), Err(12));
        assert!(rt; self.store.take(0).is_none());
    }

    /// Every question about the store, for a place and a fact.
    fn ask(&self, rt: &impl Abort, place: usize, fact: Fact) {
        assert!(rt; place < self.map.len());
        let above = label_at(place);
        let held = self.map[place];
        let Fact { kind, words } = fact;
        let word = words[0];
        let fits = |fact: &Fact| fact.kind == kind;
        let fits_with = |fact: &Fact| fact.kind == kind && fact.words[0] == word;
        assert_eq!(rt; self.store.capacity(), self.capacity, "capacity");
        assert_eq!(rt; self.store.count(), self.held(), "count");
        assert_eq!(rt; self.store.read(above), held, "read");
        for above in [above, 0] {
            assert_eq!(rt;
                self.store.next(kind, above),
                self.next_that(above, fits),
                "next"
            );
            assert_eq!(rt;
                self.store.next_with(kind, word, above),
                self.next_that(above, fits_with),
                "next with"
            );
        }
    }

    /// Turns of a put or a take, each with refused puts and every question behind it; of sixteen acts so many are puts.
    fn turns(&mut self, rt: &impl Abort, puts: u32) {
        let places = self.map.len().max(1);
        let mut seed = puts;
        for _ in 0..2_000 {
            seed = stirred(seed);
            let place = (seed >> 5) as usize % places;
            let fact = fact_of(seed);
            if seed >> 28 < puts {
                self.try_put(rt, place, fact);
            } else {
                self.try_take(rt, place);
            }
            let asked = stirred(seed);
            self.try_refused(rt, place, fact);
            self.ask(rt, (asked >> 5) as usize % places, fact_of(asked));
        }
    }

    // By numbers, here and below: an act changes the map, so no iterator can go over it meanwhile.
    fn put_everywhere(&mut self, rt: &impl Abort) {
        for place in 0..self.map.len() {
            let seed = (place % PLACES) as u32;
            self.try_put(rt, place, fact_of(stirred(seed)));
        }
        assert_eq!(rt; self.store.count(), self.capacity);
    }

    fn take_everywhere(&mut self, rt: &impl Abort) {
        for place in 0..self.map.len() {
            self.try_take(rt, place);
        }
        assert_eq!(rt; self.store.count(), 0);
    }
}

/// Drives a new store of a capacity: mostly puts, until it is full and refuses, then mostly takes, and both again.
pub(crate) fn try_store<S: Store>(rt: &impl Abort, store: &mut S, capacity: usize) {
    let mut map: [Option<Fact>; PLACES] = [None; PLACES];
    let spread = (2 * capacity.min(PLACES) + 2).min(PLACES);
    assert_eq!(rt; store.count(), 0);
    let mut trial = Trial {
        store,
        map: &mut map[..spread],
        capacity,
    };
    trial.turns(rt, 14);
    trial.put_everywhere(rt);
    trial.turns(rt, 2);
    trial.take_everywhere(rt);
    trial.turns(rt, 8);
}
