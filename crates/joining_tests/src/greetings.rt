//! Whole greetings. The number of the challenge is from Python's `hmac`.

use greeting::{AcceptFault, Address, Door, GreetingBytes, Heard, Knock, Reached, Reason, Sixteen};
use std::test::Fail;

// 127.0.0.1
const LOOPBACK: u64 = 0xffff_7f00_0001;

const HERE: Address = Address {
    high: 0,
    low: LOOPBACK,
    port: 28_001,
};

const ELSEWHERE: Address = Address {
    high: 0,
    low: LOOPBACK,
    port: 28_002,
};

const NONCE: Sixteen = Sixteen {
    low: 0x1122_3344_5566_7788,
    high: 0x99aa_bbcc_ddee_ff00,
};

// What goes to port 28001 under a secret of fives.
const NUMBER: [u8; 16] = [
    0x04, 0xf5, 0x57, 0xf0, 0x65, 0x3b, 0x9f, 0x6d, 0x4d, 0x52, 0x6e, 0x37, 0x06, 0xb5, 0xd3, 0x47,
];

#[test]
fn client_gets_in_once(rt: HostRuntime) -> Result<(), Fail> {
    let mut door = Door::new(rt.alloc(), [5; 32], [9; 32], [7; 32], 2)?;
    let mut knock = Knock::new(NONCE, [9; 32]);
    let mut said = GreetingBytes::new();
    let mut reply = GreetingBytes::new();
    knock.write(b"token", &mut said);
    assert!(rt; said.as_slice().len() == 50);
    assert!(rt; door.hear(HERE, said.as_slice(), &mut reply) == Heard::Challenged);
    assert!(rt; reply.as_slice().ends_with(&NUMBER));
    knock.hear(reply.as_slice());
    knock.write(b"token", &mut said);
    assert!(rt; said.as_slice().ends_with(b"token"));
    // the number is this address's alone
    assert!(rt; door.hear(ELSEWHERE, said.as_slice(), &mut reply) == Heard::Dropped);
    assert!(rt; reply.as_slice().is_empty());
    assert!(rt; door.accept(1, &mut reply) == Err(AcceptFault::NobodyAsks));
    assert!(rt; door.hear(HERE, said.as_slice(), &mut reply) == Heard::Asks);
    assert!(rt; door.accept(2, &mut reply) == Err(AcceptFault::NoSeat));
    assert!(rt; door.accept(1, &mut reply) == Ok(()));
    knock.hear(reply.as_slice());
    assert!(rt; matches!(knock.reached(), Reached::Joined { client: 1, .. }));
    assert!(rt; door.hear(HERE, said.as_slice(), &mut reply) == Heard::Again { client: 1 });
    assert!(rt; reply.as_slice().len() == 54);
    Ok(())
}

#[test]
fn full_door_and_other_games_are_told(rt: HostRuntime) -> Result<(), Fail> {
    let mut door = Door::new(rt.alloc(), [5; 32], [9; 32], [7; 32], 0)?;
    let mut knock = Knock::new(NONCE, [9; 32]);
    let mut other = Knock::new(NONCE, [8; 32]);
    let mut said = GreetingBytes::new();
    let mut reply = GreetingBytes::new();
    other.write(b"", &mut said);
    let refused = door.hear(HERE, said.as_slice(), &mut reply);
    assert!(rt;
        refused
            == Heard::Refused {
                reason: Reason::OtherProtocol
            }
    );
    other.hear(reply.as_slice());
    assert!(rt;
        matches!(
            other.reached(),
            Reached::Refused {
                reason: Reason::OtherProtocol
            }
        )
    );
    knock.write(b"", &mut said);
    let challenged = door.hear(HERE, said.as_slice(), &mut reply);
    assert!(rt; challenged == Heard::Challenged);
    knock.hear(reply.as_slice());
    // the secret before is still taken, but not the one before that
    door.renew([6; 32]);
    knock.write(b"", &mut said);
    let full = door.hear(HERE, said.as_slice(), &mut reply);
    assert!(rt;
        full == Heard::Refused {
            reason: Reason::Full
        }
    );
    door.renew([7; 32]);
    assert!(rt; door.hear(HERE, said.as_slice(), &mut reply) == Heard::Dropped);
    Ok(())
}
