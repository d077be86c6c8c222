//! What a board says of a configuration.
use super::base::{board_shows, given, progress, two};
use gate_record::{PipelineId, TenantId};
use gate_status::{Board, Progress};

// Sets the only pipeline of a board, and then two that aren't there.
fn set(board: &mut Board) {
    board.set(TenantId(0), PipelineId(0), progress(1, 1, 0));
    board.set(TenantId(0), PipelineId(1), Progress::none());
    board.set(TenantId(1), PipelineId(0), Progress::none());
}

#[test]
fn a_board_shows_what_was_set(rt: HostRuntime) {
    let gens = two(&rt);
    let config = gens.first();
    let mut board = given(&rt, Board::new(rt.alloc(), config));
    let first = "pipeline \"main\" \"check\" done 0 items 0 reports 0 running\n";
    board_shows(&rt, config, &board, first);
    set(&mut board);
    let second = "pipeline \"main\" \"check\" done 1 items 1 reports 0 finished\n";
    board_shows(&rt, config, &board, second);
}
