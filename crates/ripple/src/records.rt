// What a write moves.

ghost use Rattle.model.specs.Deliveries.{slices_of, Even};

// Records slot by slot in four slices of one length, which a call may write.
#[derive(Drop)]
pub struct RecordsMut<'a> {
    pub growers: &'a mut [u32],
    pub weights: &'a mut [u32],
    pub yields: &'a mut [u32],
    pub days: &'a mut [u32],
    pub ghost even: { Even (slices_of growers.now weights.now yields.now days.now) },
}
