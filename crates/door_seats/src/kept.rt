//! Answers that are kept for records that come again.

ghost use Rattle.std.specs.Prelude.{◌≡◌, [], IfOk, OnOk, OnErr};
ghost use Rattle.std.specs.Option.{option_copied};
ghost use Rattle.door_seats.specs.Kept.{answer_of, with_answer};

use crate::request::Request;
use harp_types::Bytes;
use lru::LruCache;
use std::alloc::{AllocError, Global};
use std::marker::Model;
use std::num::NonZeroUsize;

/// So many answers are kept.
const MOST_KEPT: usize = 1024;

/// The last records that were answered, with their answers as they were sent.
#[derive(Drop)]
pub struct KeptAnswers {
    answers: LruCache<Request, Bytes>,
}

impl Model for KeptAnswers {
    ghost use Rattle.std.specs.Prelude.{◌≡◌};
    ghost use Rattle.door_seats.specs.Kept.{Kept, most_kept};

    ghost Value = { Kept };

    ghost view = { λ k. k.answers.entries };

    ghost invariant = { λ k. k.answers.cap ≡ most_kept };
}

impl KeptAnswers {
    /// None.
    pub fn new(alloc: Global) -> Result<KeptAnswers, AllocError>
        ensures { IfOk result (λ kept. kept ≡ []) }
    {
        Ok(KeptAnswers {
            answers: LruCache::sparse(alloc, NonZeroUsize::new(MOST_KEPT).unwrap())?,
        })
    }

    /// The answer of a record, where it is kept.
    pub fn answer_of(&self, request: &Request) -> Option<&Bytes>
        ensures { option_copied result ≡ answer_of request.now self.now }
    {
        self.answers.peek(request)
    }

    /// Keeps a record's answer. The oldest one goes where there are too many.
    pub fn keep(&mut self, request: Request, answer: Bytes) -> Result<(), AllocError>
        ensures ok { OnOk result (self.new ≡ with_answer request answer self.old) }
        ensures err { OnErr result (self.new ≡ self.old) }
    {
        match self.answers.put(request, answer) {
            Ok(_) => Ok(()),
            Err(_) => Err(AllocError),
        }
    }
}
