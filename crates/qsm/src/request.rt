// The interrupt request: its level and vector.
ghost use Rattle.std.specs.Prelude.{◌≡◌, cond};
ghost use Rattle.qsm.specs.model.Request.{vector_of, winner, request};

fn asked(asks: bool, level: u8) -> u8
    ensures { result ≡ cond asks level 0 }
{
    if asks { level } else { 0 }
}

#[derive(Clone, Copy)]
pub struct Request {
    pub level: u8,
    pub vector: u8,
}

fn vector(queue: bool, qivr: u8) -> u8
    ensures { result ≡ vector_of queue qivr }
{
    if queue {
        qivr / 2 * 2 + 1
    } else {
        qivr / 2 * 2
    }
}

// The request of the half that asks at the higher level, QSPI on a tie; level 0 gives vector 0.
fn winner(queue: u8, serial: u8, qivr: u8) -> Request
    ensures { result ≡ winner queue serial qivr }
{
    if serial <= queue {
        if queue == 0 {
            Request {
                level: 0,
                vector: 0,
            }
        } else {
            Request {
                level: queue,
                vector: vector(true, qivr),
            }
        }
    } else {
        Request {
            level: serial,
            vector: vector(false, qivr),
        }
    }
}

// Ruled out: SCI on a tie; a half that does not ask.
#[tactic(auto, unfolding(crate::specs::model::Request::request))]
pub fn request_of(queue: bool, serial: bool, qilr: u8, qivr: u8) -> Request
    ensures { result ≡ request queue serial qilr qivr }
{
    winner(asked(queue, qilr / 8 % 8), asked(serial, qilr % 8), qivr)
}
