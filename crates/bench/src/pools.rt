// The pools whose calls are timed, made by the calls themselves.
use crate::pool_calls::{NO_WISH, Request, allocate};
use blocks::BUFFER_WORDS;
use std::fmt;

#[derive(Clone, Copy, Debug, PartialEq, Eq)]
pub enum Filling {
    AllFree,
    EverySecondHeld,
    Full,
}

impl fmt::Display for Filling {
    fn fmt<W: fmt::Write>(&self, f: &mut fmt::Formatter<W>) -> fmt::Result {
        f.write_str(match self {
            Filling::AllFree => "all free",
            Filling::EverySecondHeld => "every second held",
            Filling::Full => "full",
        })
    }
}

// Gives frames 0, 1, 2, .. singly, the even ones to the owners from 1 on and the odd ones to those above half the pool.
fn give_singly(frames: &mut [u32], pool: u32) {
    let half = pool / 2;
    let mut frame = [0u32; 1];
    for i in 0..half {
        let _ = frames::allocate(frames, pool, 1 + i, NO_WISH, &mut frame);
        let _ = frames::allocate(frames, pool, half + 1 + i, NO_WISH, &mut frame);
    }
}

// Every frame, frame f for owner f + 1.
fn whole(pool: u32) -> Request {
    Request {
        pool,
        owner: 1,
        n: pool,
    }
}

// The words of a pool of `pool` frames.
pub fn filled(filling: Filling, pool: u32) -> [u32; BUFFER_WORDS] {
    let mut frames = [0u32; BUFFER_WORDS];
    let _ = frames::set_up(&mut frames, pool);
    match filling {
        Filling::AllFree => {}
        Filling::EverySecondHeld => {
            give_singly(&mut frames, pool);
            let _ = frames::free(&mut frames, pool, pool / 2 + 1, pool / 2);
        }
        Filling::Full => {
            let mut out = [0u32; BUFFER_WORDS];
            let _ = allocate(&mut frames, whole(pool), &mut out);
        }
    }
    frames
}

// What is asked of allocate: as many frames as are free, or in a full pool as there are, and at most 1,024, for the last owners.
pub fn asked(filling: Filling, pool: u32) -> Request {
    let most = match filling {
        Filling::AllFree => pool,
        Filling::EverySecondHeld => pool / 2,
        Filling::Full => pool,
    };
    let n = most.min(1024);
    Request {
        pool,
        owner: 4097 - n,
        n,
    }
}

// The same request for one frame.
pub fn single(r: Request) -> Request {
    Request { n: 1, ..r }
}

// What is asked of free: the same owners, or in a full pool, where allocate is refused, as many from the first on.
pub fn held(filling: Filling, r: Request) -> Request {
    let owner = match filling {
        Filling::AllFree => r.owner,
        Filling::EverySecondHeld => r.owner,
        Filling::Full => 1,
    };
    Request { owner, ..r }
}
