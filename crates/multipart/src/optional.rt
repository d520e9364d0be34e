// What runs once a first operation has begun: until then there is nothing, and nothing to forget.
ghost use Rattle.std.specs.{Prelude.IfSome, Option.IsSomeAnd};

use crate::state::{Steps, Work};
use crate::stepped::Stepped;
use psa_status::Status;

impl<W: Work> Work for Option<W> {
    ghost Said = { W.Said };

    ghost is_clear = { λ o. IfSome o W.is_clear };

    ghost holds = { λ o said. IsSomeAnd o (λ work. W.holds work said) };

    ghost runs = { λ o. IfSome o W.runs };

    fn forget(&mut self) {
        if let Some(work) = self {
            work.forget();
        }
    }
}

impl<S: Drop, W: Steps<S>> Steps<S> for Option<W> {
    ghost Given = { W.Given };

    ghost has = { λ o given. IsSomeAnd o (λ work. W.has work given) };

    ghost meaning = { W.meaning };

    ghost takes = { W.takes };

    fn takes_random(step: &S) -> bool {
        W::takes_random(step)
    }

    fn draws(&self, step: &S, room: usize) -> usize {
        match self {
            Some(work) => work.draws(step, room),
            None => 0,
        }
    }

    fn advance(&mut self, step: S, random: &[u8; 16], out: &mut [u8]) -> Stepped {
        match self {
            Some(work) => work.advance(step, random, out),
            None => Stepped::going_on(Err(Status::BadState)),
        }
    }
}
