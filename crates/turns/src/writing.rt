ghost use Rattle.std.specs.Prelude.{◌≡◌};
ghost use Rattle.turns.specs.Written.{bytes_of, ReadsBack};

use crate::layout::{MARK, STATE_LEN};
use crate::state::State;

impl State {
    // The state's bytes. A state whose kind fits its turn is read from them again.
    #[tactic(auto, using(crate::proofs::Spelling::spells, crate::proofs::Spelling::reads_back))]
    pub fn write(&self) -> [u8; STATE_LEN]
        ensures bytes { result ≡ bytes_of self.now }
        ensures back { ReadsBack self.now result }
    {
        let amounts = &self.position.amounts;
        let mut bytes = [0; STATE_LEN];
        let (mark, rest) = bytes.split_first_chunk_mut().unwrap();
        *mark = MARK;
        let (docket, rest) = rest.split_first_chunk_mut().unwrap();
        *docket = self.docket.to_be_bytes();
        let (one_byte, rest) = rest.split_first_chunk_mut().unwrap();
        *one_byte = [self.at_match, self.code, self.turn, u8::from(self.kind)];
        let (seat0, rest) = rest.split_first_chunk_mut().unwrap();
        *seat0 = amounts.seat0.to_be_bytes();
        let (seat1, rest) = rest.split_first_chunk_mut().unwrap();
        *seat1 = amounts.seat1.to_be_bytes();
        rest.copy_from_slice(&self.position.data);
        bytes
    }
}
