//! A read of a shared reader that waits for nobody.
ghost use Rattle.std.specs.Prelude.{◌≡◌, ◌≢◌, true, IfOk, IfErr, IfSome, Err};
ghost use Rattle.std.specs.IoError.{error_kind};
ghost use Rattle.std.specs.declared.io.ErrorKind.TheVariants.{Interrupted};
ghost use Rattle.crossterm_types.specs.Admitting.{is_event};
ghost use Rattle.crossterm_types.specs.Seen.{seen};
ghost use Rattle.crossterm_types.specs.declared.event.filter.AnyFilter.TheVariants as filters;
ghost use Rattle.crossterm_read.specs.Entries as entries;
ghost use Rattle.crossterm_read.specs.Replies.{event_tried, shown};
ghost use Rattle.crossterm_read.specs.inside.Replies.{last_tried, try_reply};
ghost use Rattle.crossterm_read.specs.PassViews.{knows};
ghost use Rattle.crossterm_read.specs.Shared.{IsPassOf};

use crate::read::held::Taken;
use crate::read::patience::Tries;
use crate::read::reader::AtWake;
use crate::read::shared::calls::users;
use crate::read::shared::pass::Pass;
use crate::read::shared::reader::EventReader;
use crate::source::EventSource;
use crossterm_types::event::filter::AnyFilter;
use crossterm_types::event::timeout::Still;
use crossterm_types::event::{Event, InternalEvent};
use std::alloc::Allocator;
use std::io;
use std::marker::Brand;
use std::sync::Wait;

// The number of what was taken last, after one more call.
pub(crate) fn last_after_try<E>(
    last: Option<u64>,
    tried: &io::Result<Option<Taken<E>>>,
) -> Option<u64>
    ensures { result ≡ last_tried last tried.now }
{
    match tried {
        Ok(Some(taken)) => Some(taken.number),
        Ok(None) | Err(_) => last,
    }
}

// The user's event without its number.
pub(crate) fn users_tried<A: Allocator>(
    tried: io::Result<Option<Taken<InternalEvent<A>>>>,
) -> io::Result<Option<Event<A>>>
    requires { IfOk tried (λ taken. IfSome taken (λ x. is_event (seen x.event) ≡ true)) }
    ensures reply { event_tried result ≡ shown (try_reply tried) }
    ensures err { IfErr result (λ e. tried ≡ Err e) }
{
    match tried {
        Ok(Some(taken)) => Ok(Some(users(taken.event))),
        Ok(None) => Ok(None),
        Err(error) => Err(error),
    }
}

impl<S: EventSource<A>, A: Allocator + Clone> EventReader<S, A> {
    // Takes the first event of the user, if one is held or comes at once: the device is asked once at most, with limit zero.
    //
    // It waits for nobody: if another has the reader, it returns `None`.
    #[inline(always)]
    pub(crate) fn try_read<R: Wait>(
        &self,
        rt: &R,
        pass: &mut Pass<S, A>,
    ) -> io::Result<Option<Event<A>>>
        requires { IsPassOf self.now pass.old }
        ensures pass { IsPassOf self.now pass.new }
        ensures call { entries.Tries S.drawn S.asked filters.Event (knows pass.old) (knows pass.new) (event_tried result) }
        ensures awake { IfErr result (λ e. error_kind e ≢ Interrupted) }
    {
        let Some(mut reader) = self.slot.try_take(rt, &mut pass.slot_pass) else {
            return Ok(None);
        };
        let once = Tries { most: 1 };
        let tried = reader.next(&once, &mut Still, AtWake::GoesOn, &AnyFilter::Event);
        self.slot
            .put::<Brand, _, R>(rt, &mut pass.slot_pass, reader, &tried);
        pass.last = last_after_try(pass.last, &tried);
        users_tried(tried)
    }
}
