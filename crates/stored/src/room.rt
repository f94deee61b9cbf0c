// The five lists that a stored job is read into.
#[derive(Drop)]
pub struct Room<'a> {
    pub sizes: &'a mut [u16],
    pub sides: &'a mut [u16],
    pub marks: &'a mut [u16],
    pub bounds: &'a mut [u16],
    pub pins: &'a mut [u16],
}
