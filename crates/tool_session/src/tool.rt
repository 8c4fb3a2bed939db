//! The tool's end of a session.

ghost use Rattle.std.specs.Prelude.{◌≡◌, ◌≤◌, ◌<◌, ◌+◌, ◌++◌, [], ℕ, List, length, drop, slice_index, Option, Some, OnOk, option_copied};
ghost use Rattle.deploy_model.specs.Deployment.{Deploying, next_of};
ghost use Rattle.deploy_model.specs.Tool as model;
ghost use Rattle.deploy_model.specs.Play.{only_runs};
ghost use Rattle.deploy_tool.specs.Steps.{next_view};
ghost use Rattle.tool_session.specs.Goals.{goal_view, work_view, set_of, FitsABank, finish_view, told_at, ending_view};
ghost use Rattle.tool_session.specs.Tools.{after_take};

use crate::goal::{Ending, Finish, Goal, Payload, Stage, Work};
use arrayvec::ArrayVec;
use byteorder::{ByteOrder, LittleEndian};
use deploy_tool::{Deploy, Step};
use plain_types::fault::NoMemory;
use plain_types::list::Items;
use std::alloc::Global;
use std::marker::Model;
use wire_packets::command::{CLOSE, FETCH, FLASH_FAILED, NO_MEMORY, OPEN, RUN};
use wire_packets::packet::{LAST_SEQ, MAX_PAYLOAD, Packet};
use wire_packets::payload::{
    END_TEXT, MAX_PIECE, RANGE_AT, RANGE_LENGTH, RANGE_SIZE, RUN_CELLS, RUN_SIZE, RUN_STEPS,
};
use wire_session::Asker;

/// Where the reply to Run has the length of the text, behind the status.
const TEXT_LENGTH: usize = 1 + END_TEXT;

/// A tool in a session with a board.
#[derive(Debug, Drop)]
pub struct Tool<'a> {
    asker: Asker,
    /// The last request, and whether it waits for its reply.
    last: Packet,
    waits: bool,
    goal: Goal<'a>,
    deploy: Deploy<'a>,
    stage: Stage,
    /// The payload of the reply to Run.
    end: Payload,
    told: bool,
    got: Vec<u8>,
}

impl<'a> Model for Tool<'a> {
    ghost use Rattle.deploy_model.specs.Tool as model;
    ghost use Rattle.tool_session.specs.Goals.{goal_view};
    ghost use Rattle.tool_session.specs.Tools.{stage_view, KeepsLast};

    ghost Value = { model.Tool };

    ghost view = { λ t. record { asking = t.asker; goal = goal_view t.goal; stage = stage_view t.stage t.deploy t.end.items; told = t.told; got = t.got.items } };

    ghost invariant = { λ t. KeepsLast t.asker t.last t.waits };
}

/// The set of a work, and nothing where it has none.
fn set_of<'a>(work: &Work<'a>) -> &'a [u8]
    ensures { result.now ≡ set_of (work_view work.now) }
{
    match work {
        Work::DeploysAndRuns { set } => set,
        Work::OnlyRuns => &[],
    }
}

/// A byte, and 0 past the end.
fn byte_at(bytes: &[u8], at: usize) -> u32
    ensures value { result ≡ slice_index bytes.now at }
    ensures byte { result < 256 }
{
    match bytes.get(at) {
        Some(byte) => u32::from(*byte),
        None => 0,
    }
}

/// How long the text is that a reply to Run tells.
fn text_length(end: &[u8]) -> u32
    ensures { result ≡ model.text_length end.now }
{
    let high = byte_at(end, TEXT_LENGTH + 2) + 256 * byte_at(end, TEXT_LENGTH + 3);
    let low = byte_at(end, TEXT_LENGTH) + 256 * byte_at(end, TEXT_LENGTH + 1);
    low + 65536 * high
}

/// The payload of Run.
fn run_payload(goal: &Goal<'_>) -> [u8; RUN_SIZE]
    ensures { result ≡ model.run_payload (goal_view goal.now) }
{
    let mut payload = [0u8; RUN_SIZE];
    LittleEndian::write_u64(&mut payload[RUN_STEPS..], goal.steps);
    LittleEndian::write_u32(&mut payload[RUN_CELLS..], goal.cells);
    payload
}

/// The payload of Fetch, for the next piece behind a place of a text of so many bytes.
fn fetch_payload(end: &[u8], at: u32) -> [u8; RANGE_SIZE]
    ensures { result ≡ model.fetch_payload end.now at }
{
    let left = text_length(end).saturating_sub(at);
    let mut payload = [0u8; RANGE_SIZE];
    LittleEndian::write_u32(&mut payload[RANGE_AT..], at);
    LittleEndian::write_u32(&mut payload[RANGE_LENGTH..], left.min(MAX_PIECE as u32));
    payload
}

impl<'a> Tool<'a> {
    /// A session that begins, with its first request. Nothing is allocated.
    pub fn open(alloc: Global, goal: Goal<'a>) -> Self
        requires { FitsABank (goal_view goal).work }
        ensures { result ≡ model.opens (goal_view goal.entry) (goal_view goal.entry).work }
    {
        let mut tool = Tool {
            asker: Asker::new(),
            last: Packet::request(OPEN, 0, &[]),
            waits: false,
            goal,
            deploy: Deploy::new(set_of(&goal.work)),
            stage: Stage::Opens,
            end: ArrayVec::new(),
            told: false,
            got: Vec::new(alloc),
        };
        match goal.work {
            Work::OnlyRuns => tool.ask(OPEN, &[]),
            Work::DeploysAndRuns { .. } => {
                tool.stage = Stage::Deploys;
                let step = tool.deploy.next(None);
                tool.on_step(step);
            }
        }
        tool
    }

    /// Begins a new session that only runs.
    pub fn begin_anew(&mut self, alloc: Global)
        ensures { self.new ≡ model.opens (only_runs self.old.goal) model.OnlyRuns }
    {
        let goal = Goal {
            work: Work::OnlyRuns,
            steps: self.goal.steps,
            cells: self.goal.cells,
        };
        *self = Tool::open(alloc, goal);
    }

    /// The request that waits for its reply.
    pub fn request(&self) -> Option<&Packet>
        ensures { option_copied result ≡ self.now.asking.waiting }
    {
        if self.waits { Some(&self.last) } else { None }
    }

    /// How many requests were asked.
    pub fn asked(&self) -> u16
        ensures { result ≡ self.now.asking.asked }
    {
        self.last.seq
    }

    /// Takes a packet that came, where it is the reply to the open request: then the next request is open, or the
    /// session is over. After want of memory the session is of no use any more.
    pub fn take(&mut self, reply: &Packet) -> Result<(), NoMemory>
        requires { self.old.asking.asked < LAST_SEQ }
        ensures { OnOk result (self.new ≡ after_take self.old reply.now) }
    {
        if !self.asker.take(reply) {
            return Ok(());
        }
        self.waits = false;
        self.advance(reply)
    }

    /// How the session stands, and what was fetched of the text.
    pub fn into_ending(self) -> (Ending, Items<u8>)
        ensures ending { ending_view result.0 ≡ told_at self.entry.stage }
        ensures text { result.1 ≡ self.entry.got }
    {
        let Tool {
            asker: _,
            last: _,
            waits: _,
            goal: _,
            deploy: _,
            stage,
            end,
            told: _,
            got,
        } = self;
        let ending = match stage {
            Stage::IsOver(finish) => Ending::Over { finish, end },
            _ => Ending::Waits,
        };
        (ending, Items::from_vec(got))
    }

    /// Asks a request at the stage that stands.
    fn ask(&mut self, command: u32, payload: &[u8])
        requires room { self.old.asking.asked < LAST_SEQ }
        requires payload { length payload.now ≤ MAX_PAYLOAD }
        ensures { self.new ≡ model.asks self.old self.old.stage command payload.now }
    {
        self.last = self.asker.ask(command, payload).unwrap();
        self.waits = true;
    }

    /// Asks for the run.
    fn ask_run(&mut self)
        requires { self.old.asking.asked < LAST_SEQ }
        ensures { self.new ≡ model.asks self.old model.Runs RUN (model.run_payload self.old.goal) }
    {
        self.stage = Stage::Runs;
        let payload = run_payload(&self.goal);
        self.ask(RUN, &payload);
    }

    /// The session is over, with the end that stands.
    fn finish(&mut self, finish: Finish)
        ensures { self.new ≡ model.is_over self.old (finish_view finish) [] }
    {
        self.end = ArrayVec::new();
        self.stage = Stage::IsOver(finish);
    }

    /// Goes on by what a deployment comes to next.
    fn on_step(&mut self, step: Step)
        requires { self.old.asking.asked < LAST_SEQ }
        ensures { (d : Deploying) → self.old.stage ≡ model.Deploys d → self.new ≡ model.on_next self.old (next_view step, d) }
    {
        match step {
            Step::Ask { command, payload } => self.ask(command, payload.as_slice()),
            Step::Deployed => {
                self.told = true;
                self.ask_run();
            }
            Step::Failed => self.finish(Finish::FlashFailed),
            Step::SequenceSpent => self.finish(Finish::NumbersSpent),
        }
    }

    /// Fetches the next piece of the text, or closes behind the last.
    fn fetch(&mut self)
        requires { self.old.asking.asked < LAST_SEQ }
        ensures { (end : List ℕ) → self.old.stage ≡ model.Fetches end → self.new ≡ model.fetches self.old end }
    {
        let size = text_length(self.end.as_slice());
        if self.got.len() < size as usize {
            let payload = fetch_payload(self.end.as_slice(), self.got.len() as u32);
            self.ask(FETCH, &payload);
        } else {
            self.stage = Stage::Closes;
            self.ask(CLOSE, &[]);
        }
    }

    /// Keeps a piece of the text, which stands behind the status.
    fn keep(&mut self, payload: &[u8]) -> Result<(), NoMemory>
        ensures { OnOk result (self.new ≡ record self.old { got = self.old.got ++ drop 1 payload.now }) }
    {
        if let [_, piece @ ..] = payload {
            self.got.extend_from_slice(piece)?;
        }
        Ok(())
    }

    /// Goes on behind the stage that stands, by the payload of its reply.
    fn on_stage(&mut self, reply: &Packet) -> Result<(), NoMemory>
        requires { self.old.asking.asked < LAST_SEQ }
        ensures { OnOk result (self.new ≡ model.on_stage self.old reply.now.payload.items self.old.stage) }
    {
        match self.stage {
            Stage::Deploys => {
                let step = self.deploy.next(Some(reply));
                self.on_step(step);
            }
            Stage::Opens => self.ask_run(),
            Stage::Runs => {
                self.end = copied(reply.payload.as_slice());
                self.stage = Stage::Fetches;
                self.fetch();
            }
            Stage::Fetches => {
                self.keep(reply.payload.as_slice())?;
                self.fetch();
            }
            Stage::Closes => self.stage = Stage::IsOver(Finish::HasRun),
            Stage::IsOver(_) => {}
        }
        Ok(())
    }

    /// Goes on by the reply that was awaited.
    #[tactic(auto, unfolding(deploy_model::specs::Tool::advanced))]
    fn advance(&mut self, reply: &Packet) -> Result<(), NoMemory>
        requires { self.old.asking.asked < LAST_SEQ }
        ensures { OnOk result (self.new ≡ model.advanced self.old reply.now.payload.items) }
    {
        match reply.payload.as_slice() {
            [NO_MEMORY, ..] => self.finish(Finish::NoMemory),
            [FLASH_FAILED, ..] => self.finish(Finish::FlashFailed),
            _ => return self.on_stage(reply),
        }
        Ok(())
    }
}

/// The same payload once more.
fn copied(payload: &[u8]) -> Payload
    requires { length payload.now ≤ MAX_PAYLOAD }
    ensures { result.items ≡ payload.now }
{
    let mut copy = ArrayVec::new();
    copy.try_extend_from_slice(payload).unwrap();
    copy
}
