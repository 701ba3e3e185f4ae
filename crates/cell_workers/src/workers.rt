//! The workers beside the connections: two fillers, two batch workers, an updater and a waiter. Each ends
//! once the channels are closed and what was sent before is done.
ghost use Rattle.std.specs.Prelude.{◌≡◌, ℕ, List, [], IfErr, IfOk};
ghost use Rattle.std.specs.Thread.{IsSend, IsSync};
ghost use Rattle.cell_workers.specs.Batches.{IsLent};
ghost use Rattle.cell_workers.specs.Work.{Fills, FillsBoth, IsNameWork, PoolWorks, Works};

use crate::asks::{going_zones, is_going, list_zones};
use crate::batches::Batch;
use crate::channels::{WorkReceivers, WorkSenders};
use crate::retries::{AfterDelivery, AfterWalk, after_delivery, after_walk};
use crate::tasks::Task;
use crate::updates::Update;
use hk_base::{Gate, NoMemory, Words};
use kms_cell::FillTurn;
use name_calls::NPath;
use std::alloc::Global;
use std::sync::Wait;
use std::thread::{Threads, join};
use turns::{Lent, Turns};

/// What workers share.
#[derive(Drop)]
pub struct WorkerPool<
    'a,
    R,
    D,
    W,
    K: Drop,
    N: Drop,
    S: Turns<D = D, W = W, Keys = K, Names = N>,
    G,
> {
    pub rt: &'a R,
    pub alloc: Global,
    pub shared: &'a S,
    pub gate: &'a G,
    pub senders: &'a WorkSenders<D, W, K, N, S>,
    pub receivers: &'a WorkReceivers<D, W, K, N, S>,
}

impl<
    'a,
    R: Wait,
    D,
    W,
    K: Drop,
    N: Drop,
    S: Turns<D = D, W = W, Keys = K, Names = N>,
    G: Gate,
> WorkerPool<'a, R, D, W, K, N, S, G> {
    /// Fills queues until none is low.
    fn fill_all<V: Words>(&self, keys: &mut K, words: &mut V)
        ensures { Fills (V.to_come words.old) (V.to_come words.new) (S.keys_seen keys.old)
            (S.keys_seen keys.new) }
    {
        for _ in self.rt.forever() {
            match self.shared.fill_turn(self.rt, keys, words, self.gate) {
                FillTurn::NothingLow => return,
                _ => {}
            }
        }
    }

    /// Fills queues whenever one may be low.
    fn fill<V: Words + Drop>(&self, keys: K, words: V) -> K
        ensures { (rest : ℕ → ℕ) ×
            Fills (V.to_come words) rest (S.keys_seen keys) (S.keys_seen result) }
    {
        let mut keys = keys;
        let mut words = words;
        for _ in self.rt.forever() {
            match self.receivers.low.recv(self.rt) {
                Ok(()) => self.fill_all(&mut keys, &mut words),
                Err(_) => {
                    drop(words);
                    return keys;
                }
            }
        }
        unreachable!()
    }

    /// Delivers the reply for a batch, and then has its zone walked through. If the delivery is refused for
    /// the disk or for memory, the batch is still outstanding, and it is served and delivered again later.
    fn deliver(&self, names: &mut N, update: Update<D, W, K, N, S>)
        ensures { Works IsNameWork (S.names_seen names.old) [] (S.names_seen names.new) }
    {
        let (batch, front, keys, reply) = update.into_parts();
        let answer = self
            .shared
            .update_turn(self.rt, names, keys, front, reply, self.gate);
        match after_delivery(&answer) {
            AfterDelivery::Walk => self.send_now(Task::Walk(batch.into_zone())),
            AfterDelivery::Again => self.send_later(Task::Serve(batch)),
            AfterDelivery::Nothing => drop(batch),
        }
    }

    /// Has a batch served with a pass that is split for it. The pass makes no other call. Returns the batch
    /// if it can't be served for the disk or for memory.
    fn try_serve(
        &self,
        batch: Batch<D, W, K, N, S>,
    ) -> Result<Update<D, W, K, N, S>, Batch<D, W, K, N, S>>
        ensures served { IfOk result (λ update. update ≡ batch) }
        ensures unserved { IfErr result (λ left. left ≡ batch) }
    {
        let mut batch = batch;
        let Ok(note) = batch.note(self.alloc) else {
            return Err(batch);
        };
        let mut keys = batch.split_keys(self.rt, self.shared);
        match self
            .shared
            .try_serve_turn(self.rt, self.alloc, &mut keys, note, self.gate)
        {
            Ok(reply) => Ok(Update::new(batch, keys, reply)),
            Err(note) => {
                drop(note);
                drop(keys);
                Err(batch)
            }
        }
    }

    /// Has a batch served, and sends the reply to the updater, or delivers it here if that fails. If the
    /// batch can't be served for the disk or for memory, it is tried again later.
    fn serve(&self, names: &mut N, batch: Batch<D, W, K, N, S>)
        ensures { Works IsNameWork (S.names_seen names.old) [] (S.names_seen names.new) }
    {
        match self.try_serve(batch) {
            Err(batch) => self.send_later(Task::Serve(batch)),
            Ok(update) => match self.senders.updates.send(self.rt, update) {
                Ok(()) => {}
                Err(update) => self.deliver(names, update),
            },
        }
    }

    /// Does what follows a walk through a zone.
    fn follow(&self, names: &mut N, zone: NPath, lent: Lent<K>)
        requires { IsLent lent.front (S.keys_seen lent.keys) }
        ensures { Works IsNameWork (S.names_seen names.old) [] (S.names_seen names.new) }
    {
        let Lent {
            walked,
            front,
            keys,
        } = lent;
        match after_walk(walked) {
            AfterWalk::Serve(note) => self.serve(names, Batch::new(zone, note, front, keys)),
            AfterWalk::Again => {
                drop(keys);
                self.send_later(Task::Walk(zone));
            }
            AfterWalk::Nothing => {
                drop(keys);
                drop(zone);
            }
        }
    }

    /// Walks through a zone once, and has the batch served, if there is one. If the walk is refused for the
    /// disk or for memory, it is made again later.
    fn walk(&self, names: &mut N, zone: NPath)
        ensures { Works IsNameWork (S.names_seen names.old) [] (S.names_seen names.new) }
    {
        let Ok(path) = zone.copy(self.alloc) else {
            self.send_later(Task::Walk(zone));
            return;
        };
        match self.shared.walk_turn(self.rt, names, path) {
            Ok(lent) => self.follow(names, zone, lent),
            Err(_) => self.send_later(Task::Walk(zone)),
        }
    }

    /// Has a batch served that was refused before, unless the status of its zone shows that the
    /// re-encryption has ended.
    fn serve_again(&self, names: &mut N, batch: Batch<D, W, K, N, S>)
        ensures { Works IsNameWork (S.names_seen names.old) [] (S.names_seen names.new) }
    {
        let going = is_going(self.rt, self.alloc, self.shared, names, batch.zone());
        if matches!(going, Ok(false)) {
            drop(batch);
            return;
        }
        self.serve(names, batch);
    }

    /// Does a task.
    fn work(&self, names: &mut N, task: Task<D, W, K, N, S>)
        ensures { Works IsNameWork (S.names_seen names.old) [] (S.names_seen names.new) }
    {
        match task {
            Task::Walk(zone) => self.walk(names, zone),
            Task::Serve(batch) => self.serve_again(names, batch),
        }
    }

    /// Does the tasks that it is sent.
    fn work_all(&self, names: N) -> N
        ensures { Works IsNameWork (S.names_seen names) [] (S.names_seen result) }
    {
        let mut names = names;
        for _ in self.rt.forever() {
            match self.receivers.tasks.recv(self.rt) {
                Ok(task) => self.work(&mut names, task),
                Err(_) => return names,
            }
        }
        unreachable!()
    }

    /// Delivers what it is sent.
    fn update_all(&self, names: N) -> N
        ensures { Works IsNameWork (S.names_seen names) [] (S.names_seen result) }
    {
        let mut names = names;
        for _ in self.rt.forever() {
            match self.receivers.updates.recv(self.rt) {
                Ok(update) => self.deliver(&mut names, update),
                Err(_) => return names,
            }
        }
        unreachable!()
    }

    /// Sends the path of each zone that is still being re-encrypted, as far as there is memory.
    fn send_going(&self, names: &mut N) -> Result<(), NoMemory>
        ensures { Works IsNameWork (S.names_seen names.old) [] (S.names_seen names.new) }
    {
        let zones = list_zones(self.rt, self.alloc, self.shared, names)?;
        let going = going_zones(self.rt, self.alloc, self.shared, names, zones.as_slice());
        drop(zones);
        match going {
            Err(why) => Err(why),
            Ok(going) => {
                let sent = self.send_all(going.as_slice());
                drop(going);
                sent
            }
        }
    }

    /// Sends these paths.
    fn send_all(&self, zones: &[NPath]) -> Result<(), NoMemory> {
        for zone in zones {
            let path = zone.copy(self.alloc)?;
            self.send_now(Task::Walk(path));
        }
        Ok(())
    }
}

impl<
    'a,
    R: Threads + Wait + Sync,
    D,
    W,
    K: Drop + Send,
    N: Drop + Send,
    S: Turns<D = D, W = W, Keys = K, Names = N> + Sync,
    G: Gate + Sync,
> WorkerPool<'a, R, D, W, K, N, S, G> {
    /// Two fillers, each with words of its own.
    fn fillers<V: Words + Send + Drop>(&self, keys: K, first: V, second: V) -> K
        ensures { FillsBoth (V.to_come first) (V.to_come second) (S.keys_seen keys)
            (S.keys_seen result) }
    {
        let mut keys = keys;
        let other = self.shared.split_keys(self.rt, &mut keys);
        let (keys, other) = join(
            self.rt,
            move || -> K
                ensures { (rest : ℕ → ℕ) ×
                    Fills (V.to_come first) rest (S.keys_seen keys) (S.keys_seen result) }
            { self.fill(keys, first) },
            move || -> K
                ensures { (rest : ℕ → ℕ) ×
                    Fills (V.to_come second) rest (S.keys_seen other) (S.keys_seen result) }
            { self.fill(other, second) },
        );
        let mut keys = keys;
        self.shared.meet_keys(self.rt, &mut keys, other);
        keys
    }

    /// The updater and the waiter.
    fn updater(&self, names: N) -> N
        ensures { Works IsNameWork (S.names_seen names) [] (S.names_seen result) }
    {
        let (names, _) = join(
            self.rt,
            move || -> N
                ensures { Works IsNameWork (S.names_seen names) [] (S.names_seen result) }
            { self.update_all(names) },
            move || -> () { self.send_refused() },
        );
        names
    }

    /// Two batch workers.
    fn batch_workers(&self, names: N) -> N
        ensures { (others : List ℕ) ×
            Works IsNameWork (S.names_seen names) others (S.names_seen result) }
    {
        let mut names = names;
        let other = self.shared.split_names(self.rt, &mut names);
        let (names, other) = join(
            self.rt,
            move || -> N
                ensures { Works IsNameWork (S.names_seen names) [] (S.names_seen result) }
            { self.work_all(names) },
            move || -> N
                ensures { Works IsNameWork (S.names_seen other) [] (S.names_seen result) }
            { self.work_all(other) },
        );
        let mut names = names;
        self.shared.meet_names(self.rt, &mut names, other);
        names
    }

    /// The updater, the waiter and the batch workers.
    fn reencrypt(&self, names: N) -> N
        ensures { (others : List ℕ) ×
            Works IsNameWork (S.names_seen names) others (S.names_seen result) }
    {
        let mut names = names;
        let other = self.shared.split_names(self.rt, &mut names);
        let (other, names) = join(
            self.rt,
            move || -> N
                requires { IsSync R.row × IsSend K.row × IsSend N.row × IsSync S.row ×
                    IsSync G.row }
                ensures { Works IsNameWork (S.names_seen other) [] (S.names_seen result) }
            { self.updater(other) },
            move || -> N
                requires { IsSync R.row × IsSend K.row × IsSend N.row × IsSync S.row ×
                    IsSync G.row }
                ensures { (others : List ℕ) ×
                    Works IsNameWork (S.names_seen names) others (S.names_seen result) }
            { self.batch_workers(names) },
        );
        let mut names = names;
        self.shared.meet_names(self.rt, &mut names, other);
        names
    }

    /// Runs all workers until the channels are closed. First the zones that are still being
    /// re-encrypted are sent. A worker for which no thread can be made runs after the others.
    pub fn run<V: Words + Send + Drop>(&self, keys: K, names: N, first: V, second: V) -> (K, N)
        ensures { PoolWorks (V.to_come first) (V.to_come second) (S.keys_seen keys)
            (S.names_seen names) (S.keys_seen result.0) (S.names_seen result.1) }
    {
        let mut names = names;
        let _ = self.send_going(&mut names);
        join(
            self.rt,
            move || -> K
                requires { IsSync R.row × IsSend K.row × IsSend N.row × IsSync S.row ×
                    IsSync G.row × IsSend V.row }
                ensures { FillsBoth (V.to_come first) (V.to_come second) (S.keys_seen keys)
                    (S.keys_seen result) }
            { self.fillers(keys, first, second) },
            move || -> N
                requires { IsSync R.row × IsSend K.row × IsSend N.row × IsSync S.row ×
                    IsSync G.row }
                ensures { (others : List ℕ) ×
                    Works IsNameWork (S.names_seen names) others (S.names_seen result) }
            { self.reencrypt(names) },
        )
    }
}
