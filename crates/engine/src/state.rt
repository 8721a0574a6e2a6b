// What a watch holds of the runs.
use crate::grid::Grid;
use crate::window::Window;

// The configurations of the last positions, and the last events.
#[derive(Drop)]
pub struct State<V> {
    pub(crate) grid: Grid<V>,
    pub(crate) window: Window<V>,
}
