//! A bell that is rung.
use futures::test::MockTask;
use rds_mail::Bell;
use std::sync::Wait;
use std::test::Fail;

// Whether a bell wakes a task that registered, once it is rung.
fn wakes(rt: &impl Wait, task: &MockTask) -> bool {
    let bell = Bell::new();
    let registered = task.enter(|cx| bell.register(rt, cx));
    let sleeps = registered.is_ok() && !task.is_woken();
    bell.ring(rt);
    sleeps && task.is_woken()
}

#[test]
fn a_bell_wakes_the_task_that_registered(rt: HostRuntime) -> Result<(), Fail> {
    let task = MockTask::new(&rt)?;
    assert!(rt; wakes(&rt, &task));
    Ok(())
}
