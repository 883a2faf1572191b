//! The rows of a history.

use anyhow::anyhow;
use resil_jdk::{JdkEvent, JdkLimits, JdkReply};
use resil_rule::Id;
use std::str::Split;

/// What a line says.
#[derive(Clone, Copy)]
pub(crate) enum Row {
    /// A history begins, in a pool of these limits.
    Pool(JdkLimits),
    /// An event.
    Event(JdkEvent),
    /// The history ends.
    End,
}

// The fields of a line, from the left.
#[derive(Drop)]
struct Fields<'a> {
    rest: Split<'a, char>,
}

impl<'a> Fields<'a> {
    fn text(&mut self) -> anyhow::Result<&'a str> {
        match self.rest.next() {
            Some(field) => Ok(field),
            None => Err(anyhow!("a field is missing")),
        }
    }

    fn small(&mut self) -> anyhow::Result<u32> {
        match self.text()?.parse() {
            Ok(number) => Ok(number),
            Err(_) => Err(anyhow!("a field is not a number of 32 bits")),
        }
    }

    // Skips fields that the event doesn't have.
    fn skip(&mut self, count: u32) -> anyhow::Result<()> {
        for _ in 0..count {
            if !self.text()?.is_empty() {
                return Err(anyhow!("a field is not empty"));
            }
        }
        Ok(())
    }

    fn id(&mut self) -> anyhow::Result<Id> {
        let Ok(caller) = self.text()?.parse() else {
            return Err(anyhow!("the caller is not a number of 16 bits"));
        };
        let Ok(number) = self.text()?.parse() else {
            return Err(anyhow!("the number is not one of 64 bits"));
        };
        Ok(Id { caller, number })
    }

    fn reply(&mut self) -> anyhow::Result<JdkReply> {
        match self.text()? {
            "core" => Ok(JdkReply::Core),
            "first" => Ok(JdkReply::First),
            "queued" => Ok(JdkReply::Queued),
            "handed" => Ok(JdkReply::Handed),
            "extra" => Ok(JdkReply::Extra),
            "full" => Ok(JdkReply::Full),
            "closed" => Ok(JdkReply::Closed),
            _ => Err(anyhow!("no such reply")),
        }
    }

    fn switch(&mut self) -> anyhow::Result<bool> {
        match self.text()? {
            "on" => Ok(true),
            "off" => Ok(false),
            _ => Err(anyhow!("neither on nor off")),
        }
    }

    // An event of a job; its other fields are empty.
    fn of_job(&mut self) -> anyhow::Result<Id> {
        let id = self.id()?;
        self.skip(4)?;
        Ok(id)
    }

    // An event without fields.
    fn alone(&mut self, event: JdkEvent) -> anyhow::Result<JdkEvent> {
        self.skip(6)?;
        Ok(event)
    }

    fn submission(&mut self) -> anyhow::Result<JdkEvent> {
        let id = self.id()?;
        let reply = self.reply()?;
        self.skip(3)?;
        Ok(JdkEvent::Submit { id, reply })
    }

    fn resize(&mut self) -> anyhow::Result<JdkEvent> {
        self.skip(3)?;
        let core = self.small()?;
        let max = self.small()?;
        self.skip(1)?;
        Ok(JdkEvent::Resized { core, max })
    }

    fn time_out(&mut self) -> anyhow::Result<JdkEvent> {
        self.skip(5)?;
        Ok(JdkEvent::TimeOut(self.switch()?))
    }

    fn event(&mut self, name: &str) -> anyhow::Result<JdkEvent> {
        match name {
            "submit" => self.submission(),
            "take" => Ok(JdkEvent::Take(self.of_job()?)),
            "finish" => Ok(JdkEvent::Finish(self.of_job()?)),
            "remove" => Ok(JdkEvent::Remove(self.of_job()?)),
            "idle" => self.alone(JdkEvent::IdleEnd),
            "start" => self.alone(JdkEvent::Start),
            "cull" => self.alone(JdkEvent::Cull),
            "close" => self.alone(JdkEvent::Close),
            "stop" => self.alone(JdkEvent::Stop),
            "resize" => self.resize(),
            "time_out" => self.time_out(),
            _ => Err(anyhow!("no such event")),
        }
    }

    fn limits(&mut self) -> anyhow::Result<JdkLimits> {
        let core = self.small()?;
        let max = self.small()?;
        let queue = self.small()?;
        Ok(JdkLimits::new(core, max, queue)?)
    }
}

/// The row that a line is.
pub(crate) fn parse_row(line: &str) -> anyhow::Result<Row> {
    if line == "end" {
        return Ok(Row::End);
    }
    let mut fields = Fields {
        rest: line.split(','),
    };
    let name = fields.text()?;
    let row = if name == "pool" {
        Row::Pool(fields.limits()?)
    } else {
        Row::Event(fields.event(name)?)
    };
    match fields.rest.next() {
        Some(_) => Err(anyhow!("a field too many")),
        None => Ok(row),
    }
}
