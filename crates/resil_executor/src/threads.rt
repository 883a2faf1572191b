//! The threads of a pool, and its end.
ghost use Rattle.std.specs.Prelude.{◌≡◌, ◌≤◌, ◌+◌, [], IfOk, IfErr, OnErr, length, vec_capacity};
ghost use Rattle.std.specs.List.{All};
ghost use Rattle.resil_executor.specs.Turn.{HasWorkedBy, HasWorkedSinceHired, SeesOver, WasRun};
ghost use Rattle.resil_executor.specs.Seats.{limits_of, IsOf, HasLeft, known_to};

use crate::executor::{Executor, ExecutorCloser, ExecutorWorker};
use resil_rule::Record;
use resil_task::by_hand::RunOnce;
use std::alloc::{AllocError, Global};
use std::marker::PhantomData;
use std::snapshot::Snapshot;
use std::sync::Wait;
use std::thread;
use std::thread::{Promise, PromisedHandle, Scope, Threads};

// After how many empty polls a worker that ends a closed pool would be idle. Any number will do, since such a worker never idles.
const ANY_KEEP_ALIVE: u32 = 1;

impl<W: Drop, H: Record> Executor<W, H> {
    /// Ends the pool: closes it, and runs on this thread the jobs that no worker has run, until all accepted jobs are finished. It waits for jobs
    /// that run on other threads. The worker that it returns has seen the end, and ended no job that it didn't run.
    ///
    /// ```
    /// let worker = pool.end(&rt, &mut closer, &mut ());
    /// ```
    pub fn end<C, R: Wait>(
        &self,
        rt: &R,
        closer: &mut ExecutorCloser<W, H>,
        context: &mut C,
    ) -> ExecutorWorker<W, H>
    where
        W: RunOnce<C>,
        requires mine { IsOf self.now closer.old.seat }
        ensures mine { IsOf self.now result.seat }
        ensures closer { IsOf self.now closer.new.seat }
        ensures hired { (known_to closer.new.seat).made ≡ (known_to closer.old.seat).made + 1 }
        ensures worked { HasWorkedSinceHired (limits_of self.now) W.HasRun (known_to result.seat) }
        ensures over { SeesOver (limits_of self.now) (known_to result.seat) }
    {
        let mut worker = self.hire(closer);
        self.close(rt, closer);
        self.work(rt, &mut worker, context, ANY_KEEP_ALIVE);
        worker
    }
}

/// A job that the threads of a pool run, each in its own context. The job may go to another thread.
///
/// ```
/// let ended = work_while(&rt, &pool, closer, 20, || ask(&rt, &pool)); // `Executor<W>`, where `W: RunOnce<()> + Drop + Send`
/// ```
pub trait ThreadWork<C>: Drop + Send + Sized {
    ghost use Rattle.resil_executor.specs.Turn.{HasWorkedBy, SeesOver};
    ghost use Rattle.resil_executor.specs.Seats.{limits_of, IsOf, known_to};

    /// It was run in a context of a thread.
    ghost WasRunThere: { Self → Type 0 };

    /// Works on its own thread until the pool is over, as `Executor::work` does. Then the context is dropped. The worker that
    /// it returns has seen the end, and ended no job that it didn't run.
    fn work_at<H: Record + Send, R: Wait>(
        rt: &R,
        pool: &Executor<Self, H>,
        worker: ExecutorWorker<Self, H>,
        context: C,
        keep_alive: u32,
    ) -> ExecutorWorker<Self, H>
        requires mine { IsOf pool.now worker.seat }
        ensures mine { IsOf pool.now result.seat }
        ensures worked { HasWorkedBy (limits_of pool.now) WasRunThere (known_to worker.seat) (known_to result.seat) }
        ensures over { SeesOver (limits_of pool.now) (known_to result.seat) };
}

impl<C: Drop, W: RunOnce<C> + Drop + Send> ThreadWork<C> for W {
    ghost WasRunThere = { WasRun W.HasRun };

    fn work_at<H: Record + Send, R: Wait>(
        rt: &R,
        pool: &Executor<W, H>,
        worker: ExecutorWorker<W, H>,
        context: C,
        keep_alive: u32,
    ) -> ExecutorWorker<W, H>
        requires mine { IsOf pool.now worker.seat }
        ensures mine { IsOf pool.now result.seat }
        ensures worked { HasWorkedBy (limits_of pool.now) (WasRun W.HasRun) (known_to worker.seat) (known_to result.seat) }
        ensures over { SeesOver (limits_of pool.now) (known_to result.seat) }
    {
        let mut worker = worker;
        let mut context = context;
        pool.work(rt, &mut worker, &mut context, keep_alive);
        worker
    }
}

/// What is left of a pool that has ended: what the closure returned, the worker that ended the pool and has seen its end, and
/// the threads' workers. All accepted jobs are finished by then.
///
/// ```
/// let ended = work_while(&rt, &pool, closer, 20, || ask(&rt, &pool));
/// let answer = ended.answer.ok();
/// ```
#[derive(Drop)]
pub struct Ended<T, F, W: Drop, H: Record> {
    /// What the closure returned, or the closure itself if no thread could be started.
    pub answer: Result<T, F>,
    /// The calling thread's worker. Contracts see in it what the pool's log was at its end.
    pub worker: ExecutorWorker<W, H>,
    /// The workers of the threads that were started, one for each. Contracts see in them that each ran what it ended.
    pub workers: Vec<ExecutorWorker<W, H>>,
    /// The closer of the pool. Contracts see in it how many workers were hired.
    pub closer: ExecutorCloser<W, H>,
}

/// What works for a pool while a closure runs: a thread for each context, and the calling thread.
///
/// ```
/// let workers = Workers { contexts: connections, own: connection, keep_alive: 20 };
/// let ended = work_while_with(&rt, &pool, closer, workers, || ask(&rt, &pool)); // `Executor<W>`, where `W: RunOnce<Connection> + Drop + Send`
/// ```
#[derive(Drop)]
pub struct Workers<C> {
    /// The contexts of the threads, one for each.
    pub contexts: Vec<C>,
    /// The context of the calling thread, which ends the pool.
    pub own: C,
    /// After how many empty polls in a row an idle worker of the rule may end, as for `Executor::work`.
    pub keep_alive: u32,
}

impl<C: Copy> Workers<C> {
    /// `threads` threads and the calling thread, which all lend the same context, such as one or several references.
    ///
    /// # Errors
    ///
    /// `AllocError` if out of memory.
    ///
    /// ```
    /// let workers = Workers::alike(alloc, &rt, 4, 20)?;
    /// ```
    pub fn alike(
        alloc: Global,
        context: C,
        threads: u32,
        keep_alive: u32,
    ) -> Result<Workers<C>, AllocError>
        ensures count { IfOk result (λ workers. length workers.contexts.items ≡ threads) }
        ensures contexts { IfOk result (λ workers. All (λ lent. lent ≡ context) workers.contexts.items) }
        ensures own { IfOk result (λ workers. workers.own ≡ context) }
        ensures keep_alive { IfOk result (λ workers. workers.keep_alive ≡ keep_alive) }
    {
        let mut contexts = Vec::new(alloc);
        contexts.resize(threads as usize, context)?;
        Ok(Workers {
            contexts,
            own: context,
            keep_alive,
        })
    }
}

// What the thread of a worker promises about it.
#[derive(Drop)]
struct Leaves<'s, C, W: ThreadWork<C>, H: Record> {
    pool: &'s Executor<W, H>,
    context: PhantomData<C>,
}

impl<'s, C, W: ThreadWork<C>, H: Record> Promise<ExecutorWorker<W, H>> for Leaves<'s, C, W, H> {
    ghost use Rattle.resil_executor.specs.Seats.{HasLeft};

    ghost kept_by = { λ p worker. HasLeft p.pool.now W.WasRunThere worker.seat };
}

// The threads that were started, and room for their workers.
#[derive(Drop)]
struct Crew<'s, C, W: ThreadWork<C>, H: Record> {
    threads: Vec<PromisedHandle<ExecutorWorker<W, H>, Leaves<'s, C, W, H>>>,
    workers: Vec<ExecutorWorker<W, H>>,
}

// Room for `count` threads and their workers, or for none if out of memory.
fn room_for<'s, C, W: ThreadWork<C>, H: Record>(alloc: Global, count: usize) -> Crew<'s, C, W, H>
    ensures none { (result.threads.items ≡ []) × (result.workers.items ≡ []) }
    ensures room { vec_capacity result.threads ≤ vec_capacity result.workers }
    ensures few { vec_capacity result.threads ≤ count }
{
    let threads = Vec::with_capacity(alloc, count);
    let workers = Vec::with_capacity(alloc, count);
    match (threads, workers) {
        (Ok(threads), Ok(workers)) => Crew { threads, workers },
        _ => Crew {
            threads: Vec::new(alloc),
            workers: Vec::new(alloc),
        },
    }
}

// Starts a thread for each context, while there is room. If a thread can't be started, it is left out with its context.
fn start_workers<
    's,
    E: 's,
    C: Drop + Send + 's,
    W: ThreadWork<C>,
    H: Record + Send + 's,
    R: Threads + Wait + Sync,
>(
    scope: &'s Scope<'s, E>,
    rt: &'s R,
    pool: &'s Executor<W, H>,
    closer: &mut ExecutorCloser<W, H>,
    contexts: Vec<C>,
    keep_alive: u32,
    crew: Crew<'s, C, W, H>,
) -> Crew<'s, C, W, H>
    requires mine { IsOf pool.now closer.old.seat }
    requires none { crew.threads.items ≡ [] }
    ensures mine { IsOf pool.now closer.new.seat }
    ensures own { (known_to closer.new.seat).own ≡ (known_to closer.old.seat).own }
    ensures hired { (known_to closer.new.seat).made ≤ (known_to closer.old.seat).made + length contexts.items }
    ensures workers { result.workers ≡ crew.entry.workers }
    ensures room { vec_capacity result.threads ≡ vec_capacity crew.entry.threads }
    ensures promised { All (λ t. t.promise.pool.now ≡ pool.entry.now) result.threads.items }
{
    let Crew {
        mut threads,
        workers,
    } = crew;
    for context in contexts {
        if threads.len() == threads.capacity() {
            break;
        }
        let worker = pool.hire(closer);
        let promise = Leaves {
            pool,
            context: PhantomData,
        };
        let spawned = scope.spawn_with(
            promise,
            move || -> ExecutorWorker<W, H>
                requires mine { IsOf pool.now worker.seat }
                requires blank { ((known_to worker.seat).seen ≡ []) × ((known_to worker.seat).own ≡ []) }
                ensures { HasLeft pool.entry.now W.WasRunThere result.seat }
            { W::work_at(rt, pool, worker, context, keep_alive) },
        );
        if let Ok(thread) = spawned {
            threads.push_reserved(thread);
        }
    }
    Crew { threads, workers }
}

// Waits for the threads, and returns their workers.
fn join_workers<'s, C, W: ThreadWork<C>, H: Record, R: Threads>(
    rt: &R,
    _pool: &'s Executor<W, H>,
    crew: Crew<'s, C, W, H>,
) -> Vec<ExecutorWorker<W, H>>
    requires none { crew.workers.items ≡ [] }
    requires room { vec_capacity crew.threads ≤ vec_capacity crew.workers }
    requires promised { All (λ t. t.promise.pool.now ≡ _pool.now) crew.threads.items }
    ensures number { length result.items ≡ length crew.entry.threads.items }
    ensures each { All (λ worker. HasLeft _pool.entry.now W.WasRunThere worker.seat) result.items }
{
    let Crew {
        threads,
        mut workers,
    } = crew;
    for thread in threads {
        workers.push_reserved(thread.join(rt));
    }
    workers
}

// Calls the closure before the pool is closed: its closer has written nothing since it was passed in.
fn call_unclosed<W: Drop, H: Record, T, F: FnOnce() -> T>(
    _closer: &ExecutorCloser<W, H>,
    _handed_in: Snapshot<ExecutorCloser<W, H>>,
    user: F,
) -> T
    requires unclosed { (known_to _closer.now.seat).own ≡ (known_to _handed_in.value.seat).own }
    requires user { F.pre user }
    ensures { F.post user result }
{
    user()
}

// `threads` threads without a context, or none if out of memory.
fn lone_workers(alloc: Global, threads: u32, keep_alive: u32) -> Workers<()>
    ensures few { length result.contexts.items ≤ threads }
{
    match Workers::alike(alloc, (), threads, keep_alive) {
        Ok(workers) => workers,
        Err(AllocError) => Workers {
            contexts: Vec::new(alloc),
            own: (),
            keep_alive,
        },
    }
}

/// Lets as many threads as the maximum size work for the pool, while `user` runs on this thread. Then it closes the pool,
/// waits for the threads, and ends the pool. If a thread can't be started it is left out. If none can be started, or if out
/// of memory for the threads, `user` isn't run and is returned. The pool is ended in that case too. When this call returns,
/// each accepted job is finished.
///
/// After `keep_alive` empty polls in a row an idle worker of the rule may end, as for `Executor::work`.
///
/// ```
/// let answer = work_while(&rt, &pool, closer, 20, || ask(&rt, &pool)).answer;
/// ```
pub fn work_while<
    W: RunOnce<()> + ThreadWork<()>,
    H: Record + Send,
    T,
    R: Threads + Wait + Sync,
    F: FnOnce() -> T,
>(
    rt: &R,
    pool: &Executor<W, H>,
    closer: ExecutorCloser<W, H>,
    keep_alive: u32,
    user: F,
) -> Ended<T, F, W, H>
    requires mine { IsOf pool.now closer.seat }
    requires user { F.pre user }
    ensures answer { IfOk result.answer (F.post user) }
    ensures back { IfErr result.answer (λ back. back ≡ user) }
    ensures mine { IsOf pool.now result.worker.seat }
    ensures worked { HasWorkedSinceHired (limits_of pool.now) W.HasRun (known_to result.worker.seat) }
    ensures over { SeesOver (limits_of pool.now) (known_to result.worker.seat) }
    ensures closer { IsOf pool.now result.closer.seat }
    ensures hired { (known_to result.closer.seat).made ≤ (known_to closer.seat).made + (limits_of pool.now).max + 1 }
    ensures few { length result.workers.items ≤ (limits_of pool.now).max }
    ensures none { OnErr result.answer (length result.workers.items ≡ 0) }
    ensures each { All (λ worker. HasLeft pool.now W.WasRunThere worker.seat) result.workers.items }
{
    let workers = lone_workers(pool.alloc, pool.limits().max(), keep_alive);
    work_while_with(rt, pool, closer, workers, user)
}

/// The same for jobs that need something of their worker. For each context a thread works for the pool, and lends its context
/// to each job that it runs. A context is dropped when its thread ends. The pool is ended in the context `own`.
pub fn work_while_with<
    C: Drop + Send,
    W: RunOnce<C> + ThreadWork<C>,
    H: Record + Send,
    T,
    R: Threads + Wait + Sync,
    F: FnOnce() -> T,
>(
    rt: &R,
    pool: &Executor<W, H>,
    closer: ExecutorCloser<W, H>,
    workers: Workers<C>,
    user: F,
) -> Ended<T, F, W, H>
    requires mine { IsOf pool.now closer.seat }
    requires user { F.pre user }
    ensures answer { IfOk result.answer (F.post user) }
    ensures back { IfErr result.answer (λ back. back ≡ user) }
    ensures mine { IsOf pool.now result.worker.seat }
    ensures worked { HasWorkedSinceHired (limits_of pool.now) W.HasRun (known_to result.worker.seat) }
    ensures over { SeesOver (limits_of pool.now) (known_to result.worker.seat) }
    ensures closer { IsOf pool.now result.closer.seat }
    ensures hired { (known_to result.closer.seat).made ≤ (known_to closer.seat).made + length workers.contexts.items + 1 }
    ensures few { length result.workers.items ≤ length workers.contexts.items }
    ensures none { OnErr result.answer (length result.workers.items ≡ 0) }
    ensures each { All (λ worker. HasLeft pool.now W.WasRunThere worker.seat) result.workers.items }
{
    let Workers {
        contexts,
        mut own,
        keep_alive,
    } = workers;
    let (mut closer, answer, workers) = thread::scope(
        thread::scope_env(),
        rt,
        move |scope| -> (
            ExecutorCloser<W, H>,
            Result<T, F>,
            Vec<ExecutorWorker<W, H>>,
        )
            requires mine { IsOf pool.now closer.seat }
            requires user { F.pre user }
            ensures mine { IsOf pool.entry.now result.0.seat }
            ensures hired { (known_to result.0.seat).made ≤ (known_to closer.seat).made + length contexts.items }
            ensures answer { IfOk result.1 (F.post user) }
            ensures back { IfErr result.1 (λ back. back ≡ user) }
            ensures few { length result.2.items ≤ length contexts.items }
            ensures none { OnErr result.1 (length result.2.items ≡ 0) }
            ensures each { All (λ worker. HasLeft pool.entry.now W.WasRunThere worker.seat) result.2.items }
        {
            let mut closer = closer;
            let handed_in = Snapshot::of(&closer);
            let room = room_for(pool.alloc, contexts.len());
            let crew = start_workers(scope, rt, pool, &mut closer, contexts, keep_alive, room);
            let done = if crew.threads.is_empty() {
                Err(user)
            } else {
                Ok(call_unclosed(&closer, handed_in, user))
            };
            pool.close(rt, &mut closer);
            (closer, done, join_workers(rt, pool, crew))
        },
    );
    let worker = pool.end(rt, &mut closer, &mut own);
    Ended {
        answer,
        worker,
        workers,
        closer,
    }
}
