use conditions::{SensorBoard, WeekClock};
use house::House;
use stores::PairSet;

// What runs: the house, and what tells which conditions hold.
#[derive(Drop)]
pub struct Site<S: PairSet, T: PairSet> {
    pub house: House<S, T>,
    pub board: SensorBoard,
    pub clock: WeekClock,
}
