//! What a run keeps of each of its bridges.

use crate::agenda::Agenda;
use crate::census::Census;
use crate::mailbox::Mailbox;
use crate::views::Views;
use pb_frame::Memory;
use pb_lan::Plan;
use pb_service::PortEvent;
use std::alloc::Global;

/// The planned events, the wishes, the views and the stations of one bridge.
#[derive(Drop)]
pub(crate) struct Course {
    pub(crate) agenda: Agenda,
    pub(crate) mailbox: Mailbox,
    pub(crate) views: Views,
    pub(crate) census: Census,
}

/// Returns the course of the bridge of this number, from 1.
///
/// # Errors
///
/// `Memory` if an allocation failed.
fn course_of(alloc: Global, events: &[PortEvent], bridge: u8) -> Result<Course, Memory> {
    Ok(Course {
        agenda: Agenda::of(alloc, events, bridge)?,
        mailbox: Mailbox::new(alloc)?,
        views: Views::new(alloc)?,
        census: Census::new(),
    })
}

/// Returns the course of each bridge of a plan.
///
/// # Errors
///
/// `Memory` if an allocation failed.
pub(crate) fn courses_of(
    alloc: Global,
    plan: &Plan,
    events: Vec<PortEvent>,
) -> Result<Vec<Course>, Memory> {
    let mut events = events;
    events.sort_by_key(|event| event.at)?;
    let mut courses = Vec::new(alloc);
    for place in 0..plan.bridges.len().min(32) {
        courses.push(course_of(alloc, events.as_slice(), place as u8 + 1)?)?;
    }
    Ok(courses)
}
