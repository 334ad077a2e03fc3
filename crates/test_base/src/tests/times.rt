//! Times of a track, and its turns.
use flux_base::Memory;
use index_turns::TrackFlux;

// A time that is exactly an index time lies in the turn that begins there.
#[test]
fn divides_times_into_turns(rt: HostRuntime) -> Result<(), Memory> {
    let mut flux = TrackFlux::new(rt.alloc());
    flux.reserve(2, 3)?;
    flux.push_time(96)?;
    flux.push_time(192)?;
    flux.push_index(0)?;
    flux.push_index(197)?;
    flux.push_index(500)?;
    assert_eq!(rt; flux.times().len(), 2);
    for (time, turn) in [(0, 1), (196, 1), (197, 2), (198, 2), (499, 2), (500, 3)] {
        assert_eq!(rt; flux.turn_of(time), turn, "at {time}");
    }
    assert_eq!(rt; (flux.first_turn_ticks(), flux.turn_ticks(2)), (197, 303));
    flux.clear();
    assert_eq!(rt; flux.indexes().len(), 0);
    Ok(())
}

#[test]
fn appends_a_run(rt: HostRuntime) -> Result<(), Memory> {
    let mut flux = TrackFlux::new(rt.alloc());
    flux.push_time(96)?;
    assert_eq!(rt; flux.push_run(100, &[14, 255, 96]), Ok(465));
    assert_eq!(rt; flux.push_run(465, &[]), Ok(465));
    assert_eq!(rt; flux.times(), [96, 114, 369, 465].as_slice());
    Ok(())
}
