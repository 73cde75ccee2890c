//! `example_server`: a server with three callers, one worker and a queue of two places. Who finds the queue full runs the request itself.
//! It prints what became of each request.
#![tactic(auto)]

use tp_life::prelude::*;

/// A request for six less a number. There is none for a greater number.
#[derive(Drop)]
struct Request(u32);

impl Task for Request {
    type Output = u32;

    fn run(&mut self, _cancel: &CancelFlag) -> Result<u32, u32> {
        6u32.checked_sub(self.0).ok_or(400)
    }
}

/// A caller's life: it hands in four requests, and waits for their answers.
#[derive(Drop)]
struct Serving(HostRuntime);

impl Life for Serving {
    type Out = Result<Vec<Told<u32>>, PoolError>;

    type Task = Request;

    fn live<P: Calls<Task = Request>>(&self, server: &mut P, who: u32) -> Self::Out {
        let first = who.saturating_mul(4);
        if who == 2 {
            // It shuts the server down behind the requests of the two others, for which it waits ten seconds at most.
            for _ in 0..10_000 {
                if 8 <= server.look().counts.submitted {
                    break;
                }
                sleep(&self.0, Duration::from_millis(1));
            }
            server.shutdown()?;
        }
        let mut requests = Vec::new(self.0.alloc());
        for number in first..first.saturating_add(4) {
            requests.push(Request(number))?;
        }
        invoke_all(server, self.0.alloc(), requests)
    }
}

fn main(rt: HostRuntime) -> anyhow::Result<()> {
    let alloc = rt.alloc();
    let queue = QueueKind::Bounded(2);
    let settings = Config::fixed(1).queue(queue).policy(Policy::CallerRuns);
    let (served, _) = with_pool(&rt, alloc, settings, Defaults, 3, &Serving(rt))?;
    for (who, answers) in served.iter().enumerate() {
        let answers = match answers {
            Ok(answers) => answers,
            Err(error) => return Err((*error).into()),
        };
        for answer in answers {
            println!(&rt; "caller {who}: {}", InWords(answer))?;
        }
    }
    Ok(())
}
