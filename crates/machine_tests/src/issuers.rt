//! Tickets for a step of thread 3.

use super::thunks::{LOOP, job_of};
use shared_words::Issuer;
use std::alloc::AllocError;
use thunk_record::Job;

/// Whether a first ticket for a job is the last one of thread 3, and of thread 2; and after a second one was issued,
/// whether the first one is the last of thread 3, and whether the second one is.
fn are_last(job: &Job) -> Option<[bool; 4]> {
    let mut issuer = Issuer::new();
    let first = issuer.issue(job)?;
    let before = issuer.is_last(&first, 3);
    let of_another = issuer.is_last(&first, 2);
    let second = issuer.issue(job)?;
    Some([
        before,
        of_another,
        issuer.is_last(&first, 3),
        issuer.is_last(&second, 3),
    ])
}

#[test]
fn the_last_ticket_of_a_thread_is_recognized(rt: HostRuntime) -> Result<(), AllocError> {
    let job = job_of(rt.alloc(), &LOOP, 1)?;
    assert!(&rt; are_last(&job) == Some([true, false, false, true]));
    Ok(())
}
