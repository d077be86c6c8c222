//! What a board has of a run.
use super::base::{board_shows, comes_to, given, progress, talk_of, text_of, two};
use gate_config::{Config, Generations, read_config};
use gate_items::{Action, Discard, Key, Manage, Outcome};
use gate_pipeline::Pipeline;
use gate_record::{ConnId, PipelineId, TenantId};
use gate_run::Gate;
use gate_status::{Board, BoardGate, Counted};
use gate_test_runs::{COMMENT, EIGHTH, Feed, ONE, Run, SEVENTH, TWO_TENANTS};
use std::alloc::Global;
use std::process::Abort;
use std::sync::{Mutex, Wait};
use std::test::Fail;
use std::thread::Threads;
use std::time::Clock;

// Runs a configuration of one connection over a feed of one record.
fn run<R: Threads + Wait + Clock + Sync>(
    rt: &R,
    alloc: Global,
    board: &Mutex<Board>,
) -> Result<(), Fail> {
    let feed = Feed::of(alloc, &[SEVENTH])?;
    let (_posts, run) = Run::open(alloc, &[ONE, ONE])?;
    let _done = run.serve(rt, feed, &BoardGate::new(board))?;
    Ok(())
}

// Sees what a session answers to `status`.
fn shows<R: AllocGlobal + Wait + Abort>(
    rt: &R,
    gens: &Generations,
    board: &Mutex<Board>,
    wanted: &str,
) {
    let mut input = Counted::new(b"status\n".as_slice());
    let mut output = Counted::new(Vec::new(rt.alloc()));
    let end = given(rt, talk_of(rt, &mut input, &mut output, gens, board));
    comes_to(rt, text_of(rt, output.into_inner(), end).as_str(), wanted);
}

#[test]
fn a_session_shows_how_far_a_run_went(rt: HostRuntime) -> Result<(), Fail> {
    let gens = two(&rt);
    let board = Mutex::new(given(&rt, Board::new(rt.alloc(), gens.first())));
    run(&rt, rt.alloc(), &board)?;
    let wanted = "pipeline \"main\" \"check\" done 1 items 1 reports 0 finished\nok\nEnd";
    shows(&rt, &gens, &board, wanted);
    Ok(())
}

// Runs the configuration of two tenants over the records of its first connection.
fn run_two_tenants<R: Threads + Wait + Clock + Sync>(
    rt: &R,
    alloc: Global,
    board: &Mutex<Board>,
) -> Result<(), Fail> {
    let first = Feed::of(alloc, &[SEVENTH, COMMENT, EIGHTH, SEVENTH])?;
    let feeds = vec![in alloc; first, Feed::empty(alloc)]?;
    let (_posts, run) = Run::open(alloc, &[TWO_TENANTS])?;
    let _done = run.serve_all(rt, feeds, &BoardGate::new(board))?;
    Ok(())
}

const FAR_IN_EACH: &str = "\
pipeline \"main\" \"check\" done 3 items 2 reports 0 finished
pipeline \"main\" \"post\" done 1 items 1 reports 0 finished
pipeline \"other\" \"gate\" done 4 items 3 reports 0 finished
pipeline \"other\" \"idle\" done 0 items 0 reports 0 finished
";

#[test]
fn a_board_shows_each_pipeline_of_each_tenant(rt: HostRuntime) -> Result<(), Fail> {
    let config = given(&rt, read_config(rt.alloc(), TWO_TENANTS.as_bytes()));
    let board = Mutex::new(given(&rt, Board::new(rt.alloc(), &config)));
    run_two_tenants(&rt, rt.alloc(), &board)?;
    board_shows(&rt, &config, &board.lock(&rt), FAR_IN_EACH);
    Ok(())
}

// Says on a board that all pipelines of two tenants are far.
fn far(board: &mut Board) {
    for tenant in 0..2 {
        board.set(TenantId(tenant), PipelineId(0), progress(3, 2, 1));
        board.set(TenantId(tenant), PipelineId(1), progress(3, 2, 1));
    }
}

// Tells a gate that one pipeline is about to do an action, of an action of another one, and of one whose worker returns.
fn tells<R: AllocGlobal + Wait>(rt: &R, config: &Config, board: &Mutex<Board>) {
    let pipeline = Pipeline::new(rt.alloc(), config, TenantId(0), PipelineId(1));
    let manage = Manage::Dequeue(Key::Change {
        conn: ConnId(0),
        number: 7,
    });
    let processed = (
        None,
        Action::Manage(manage),
        Outcome::Discarded(Discard::NoItem),
    );
    let gate = BoardGate::new(board);
    gate.before(rt, TenantId(0), PipelineId(0), &pipeline);
    gate.after(rt, TenantId(0), PipelineId(1), &pipeline, &processed);
    gate.last(rt, TenantId(1), PipelineId(0), &pipeline);
}

const TOLD: &str =
    "pipeline \"main\" \"check\" done 3 items 2 reports 1 finished\npipeline \"main\" \"post\" done 0 items 0 reports 0 running\npipeline \"other\" \"gate\" done 0 items 0 reports 0 running\npipeline \"other\" \"idle\" done 3 items 2 reports 1 finished\n";

#[test]
fn a_board_is_told_behind_each_action_and_at_the_end(rt: HostRuntime) {
    let config = given(&rt, read_config(rt.alloc(), TWO_TENANTS.as_bytes()));
    let mut board = given(&rt, Board::new(rt.alloc(), &config));
    far(&mut board);
    let board = Mutex::new(board);
    tells(&rt, &config, &board);
    board_shows(&rt, &config, &board.lock(&rt), TOLD);
}
