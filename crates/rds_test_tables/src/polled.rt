//! A task that waits for an item.
ghost use Rattle.std.specs.Prelude.{◌≡◌};

use futures::Future;
use futures::executor::block_on;
use futures::task::{Context, Poll};
use futures::test::MockTask;
use rds_mail::{GetPass, Mail, PutPass};
use rds_wire::Memory;
use std::alloc::{AllocGlobal, Global};
use std::random::RandomSource;
use std::sync::Wait;
use std::test::Fail;
use std::thread;
use std::thread::Threads;

// The next item of a mailbox.
#[derive(Drop)]
struct Next<'a, R> {
    rt: &'a R,
    mail: &'a Mail<u32>,
    get: GetPass<u32>,
    ghost tied: { get.mail ≡ mail.now.line },
}

impl<R: Wait> Future for Next<'_, R> {
    type Output = Result<u32, Memory>;

    ghost needs = { λ next s. s ≡ next.mail.now.bell };

    fn poll(&mut self, cx: &mut Context<'_>) -> Poll<Result<u32, Memory>> {
        self.mail.poll_get(self.rt, &mut self.get, cx)
    }
}

fn puts_one(rt: &impl Wait, mail: &Mail<u32>, mut put: PutPass<u32>)
    requires { put.mail ≡ mail.now.line }
{
    let _ = mail.put(rt, &mut put, 7);
    mail.bell().ring(rt);
}

// Whether a task that polls a mailbox is woken once an item is put, and gets it then and not before.
fn polls<R: Wait>(
    rt: &R,
    task: &MockTask,
    mail: &Mail<u32>,
    put: PutPass<u32>,
    get: GetPass<u32>,
) -> bool
    requires put { put.mail ≡ mail.now.line }
    requires get { get.mail ≡ mail.now.line }
{
    let mut next = Next { rt, mail, get };
    let sleeps = task.poll(&mut next) == Poll::Pending && !task.is_woken();
    puts_one(rt, mail, put);
    sleeps && task.is_woken() && task.poll(&mut next) == Poll::Ready(Ok(7))
}

fn is_polled<R: Wait>(rt: &R, alloc: Global, task: &MockTask) -> Result<bool, Memory> {
    let (mail, put, get) = Mail::<u32>::new(alloc)?;
    Ok(polls(rt, task, &mail, put, get))
}

#[test]
fn a_mailbox_is_polled(rt: HostRuntime) -> Result<(), Fail> {
    let task = MockTask::new(&rt)?;
    assert!(rt; is_polled(&rt, rt.alloc(), &task)?);
    Ok(())
}

// The item that a task gets that sleeps while another thread puts it.
fn slept<R: Threads + Wait + RandomSource + AllocGlobal + Sync>(
    rt: &R,
    mail: &Mail<u32>,
    put: PutPass<u32>,
    get: GetPass<u32>,
) -> Option<Result<u32, Memory>>
    requires put { put.mail ≡ mail.now.line }
    requires get { get.mail ≡ mail.now.line }
{
    let next = Next { rt, mail, get };
    let (got, ()) = thread::join(
        rt,
        move || block_on(rt, next),
        move || puts_one(rt, mail, put),
    );
    got.ok()
}

#[test]
fn a_task_that_sleeps_gets_the_item(rt: HostRuntime) -> Result<(), Fail> {
    for _ in 0..20 {
        let (mail, put, get) = Mail::<u32>::new(rt.alloc())?;
        assert!(rt; slept(&rt, &mail, put, get) == Some(Ok(7)));
    }
    Ok(())
}
